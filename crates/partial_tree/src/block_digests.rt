//! The digests of blocks that stand one after the other in some bytes, made eight at a time.

ghost use Rattle.std.specs.Prelude.{◌+◌, ◌*◌, ◌^◌, ◌≡◌, ◌<◌, ◌≤◌, List, ℕ, IfSome, length};
ghost use Rattle.std.specs.Bool.{OnTrue};
ghost use Rattle.sha2.specs.Sha256.{sha256};
ghost use Rattle.hashtree.specs.Tree.{block};

use hashtree::{BLOCK_LENGTH, Hash, leaf};
use sha256_lanes::digests;

// Bytes in a block that is not its file's last.
const BLOCK: usize = BLOCK_LENGTH as usize;

// Bytes in eight blocks, which are hashed side by side.
const GROUP: usize = 8 * BLOCK;

/// The digests of eight blocks of some bytes that stand side by side, the last one being block
/// `end - 1`, for one pass over the blocks. It takes no memory.
#[derive(Drop)]
pub struct BlockDigests {
    hashes: [Hash; 8],
    end: usize,
}

impl BlockDigests {
    ghost use Rattle.partial_tree.specs.BlockDigests.{AreDigests};

    /// None yet, whatever the bytes are.
    pub fn new() -> BlockDigests
        ensures { (bytes : List ℕ) → AreDigests result bytes }
    {
        BlockDigests {
            hashes: [[0; 32]; 8],
            end: 0,
        }
    }

    /// Whether eight whole blocks stand from this one on, and its digest is not there. Condition:
    /// the number is below 2^32.
    pub fn can_fill(&self, bytes: &[u8], number: u64) -> bool
        requires { number < 2 ^ 32 }
        ensures { OnTrue result (16384 * (number + 8) ≤ length bytes.now) }
    {
        let number = number as usize;
        number >= self.end && BLOCK * number + GROUP <= bytes.len()
    }

    /// Hashes eight blocks side by side, from this one on. Conditions: the number is below 2^32,
    /// and the blocks are whole.
    pub fn fill(&mut self, bytes: &[u8], number: u64)
        requires few { number < 2 ^ 32 }
        requires whole { 16384 * (number + 8) ≤ length bytes.now }
        ensures { AreDigests self.new bytes.now }
    {
        let number = number as usize;
        let start = BLOCK * number;
        self.hashes = digests(&bytes[start..start + GROUP], BLOCK);
        self.end = number + 8;
    }

    /// The digest of a block, if it is there. Condition: the number is below 2^32.
    pub fn get(&self, number: u64) -> Option<Hash>
        requires { number < 2 ^ 32 }
        ensures { (bytes : List ℕ) → AreDigests self.now bytes
            → IfSome result (λ d. d ≡ sha256 (block bytes number)) }
    {
        let number = number as usize;
        if number < self.end && self.end <= number + 8 {
            Some(self.hashes[number + 8 - self.end])
        } else {
            None
        }
    }

    /// The digest of a block, which is made if it is not there: eight at once, if eight whole
    /// blocks stand from this one on.
    pub(crate) fn digest(&mut self, bytes: &[u8], number: u64) -> Hash
        requires few { number < 2 ^ 32 }
        requires inside { 16384 * number ≤ length bytes.now }
        requires known { AreDigests self.old bytes.now }
        ensures value { result ≡ sha256 (block bytes.now number) }
        ensures known { AreDigests self.new bytes.now }
    {
        if self.can_fill(bytes, number) {
            self.fill(bytes, number);
        }
        match self.get(number) {
            Some(digest) => digest,
            None => leaf(block_of(bytes, number)),
        }
    }
}

/// A block of these bytes: 16,384 of them, and at the end fewer. Condition: the bytes before the
/// block are there.
pub fn block_of(bytes: &[u8], number: u64) -> &[u8]
    requires { 16384 * number ≤ length bytes.now }
    ensures { result.now ≡ block bytes.now number }
{
    let rest = &bytes[(BLOCK_LENGTH * number) as usize..];
    &rest[..rest.len().min(BLOCK_LENGTH as usize)]
}
