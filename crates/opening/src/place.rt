//! The place of a block: which file and block stand at a piece index and an offset, and which
//! consecutive blocks this many bytes are (BEP 3, "piece").
ghost use Rattle.std.specs.Prelude.{◌≡◌, ℕ, ◌+◌, ◌-◌, ◌*◌, ◌/◌, ◌^◌, ◌<◌, ◌≤◌, length, map, if◌then◌else◌, Option, Some, None, IfSome, slice_get};
ghost use Rattle.std.specs.List.Sorted.{IsNonDecreasingBy, IsPartitionPoint};
ghost use Rattle.hashtree.specs.Tree.{block_count};
ghost use Rattle.opening.specs.Places.{AreLaidOut, begins_in, place_from};
ghost use Rattle.opening.specs.Seen.{file_entry};
ghost use Rattle.opening.specs.Blocks.{IsBlockRun};

use crate::torrent::{File, Torrent};
use hashtree::BLOCK_LENGTH;

impl<'a> Torrent<'a> {
    ghost use Rattle.opening.specs.Places.{IsBlockPlace, place_of};

    /// The one file and block at the address `index * piece length + begin`. A file begins at its
    /// first piece times the piece length, and its block b stands at `16384 * b` after that. `None`
    /// if no block begins there. Only the sum counts, so `begin` may pass the piece length.
    pub fn place(&self, index: u32, begin: u32) -> Option<(usize, u64)>
        ensures value { result ≡ place_of self.now index begin }
        ensures found { IfSome result (λ x. IsBlockPlace self.now index begin x.0 x.1) }
        ensures only { (f b : ℕ) → IsBlockPlace self.now index begin f b
            → result ≡ Some (record { 0 = f; 1 = b }) }
    {
        self.recall_sound();
        let piece_length = self.piece_length();
        let address = u64::from(index) * piece_length + u64::from(begin);
        place_at(self.files(), piece_length, address)
    }
}

// How many files begin at this piece or before it, if first pieces ascend.
fn begun(files: &[File<'_>], piece: u64) -> usize
    ensures bound { result ≤ length files.now }
    ensures point { IsNonDecreasingBy (λ f. f.first_piece) files.now
        → IsPartitionPoint (λ f. f.first_piece ≤ piece)
        (λ f. piece < f.first_piece) files.now result }
{
    files.partition_point(|file| file.first_piece <= piece)
}

// The file's block that begins at this address.
fn block_at(file: &File<'_>, piece_length: u64, address: u64) -> Option<u64>
    requires { file.now.first_piece * piece_length < 2 ^ 64 }
    ensures { result ≡ (if begins_in piece_length address (file_entry file.now)
        then Some ((address - file.now.first_piece * piece_length) / 16384) else None) }
{
    let start = file.first_piece * piece_length;
    if address < start || (address - start) % BLOCK_LENGTH != 0 {
        return None;
    }
    let block = (address - start) / BLOCK_LENGTH;
    (block < file.length.div_ceil(BLOCK_LENGTH)).then_some(block)
}

// The file and block at this address.
fn place_at(files: &[File<'_>], piece_length: u64, address: u64) -> Option<(usize, u64)>
    requires some { 0 < piece_length }
    requires bound { piece_length ≤ 2 ^ 30 }
    requires laid_out { AreLaidOut piece_length (map file_entry files.now) }
    ensures { result ≡ place_from piece_length address 0 (map file_entry files.now) }
{
    let begun = begun(files, address / piece_length);
    if begun == 0 {
        return None;
    }
    match block_at(&files[begun - 1], piece_length, address) {
        None => None,
        Some(block) => Some((begun - 1, block)),
    }
}

// The most bytes that one piece message carries.
const MOST_BYTES: u64 = 263_208;

impl<'a> Torrent<'a> {
    ghost use Rattle.opening.specs.Description.{FileEntry};

    /// How many consecutive blocks of the file, from this one on, have lengths that sum to `size`
    /// bytes: at least one and at most 17. `None` if no number of them has, or if `size` is above
    /// 263,208, the most bytes that one piece message carries. Conditions: there are more than
    /// `file` files, and that one has more than `block` blocks.
    pub fn block_run(&self, file: usize, block: u64, size: u64) -> Option<u64>
        requires there { file < length self.now.files }
        requires in_file { (f : FileEntry) → slice_get self.now.files file ≡ Some f
            → block < block_count f.length }
        ensures found { (f : FileEntry) → slice_get self.now.files file ≡ Some f
            → IfSome result (λ k. IsBlockRun f.length block size k) }
        ensures only { (f : FileEntry) (k : ℕ) → slice_get self.now.files file ≡ Some f
            → IsBlockRun f.length block size k → result ≡ Some k }
        ensures bound { IfSome result (λ k. k ≤ 17) }
    {
        run_in(self.files()[file].length, block, size)
    }
}

// How many consecutive blocks of a file of this length this many bytes are, from this block on.
fn run_in(length: u64, block: u64, size: u64) -> Option<u64>
    requires { block < block_count length }
    ensures found { IfSome result (λ k. IsBlockRun length block size k) }
    ensures only { (k : ℕ) → IsBlockRun length block size k → result ≡ Some k }
    ensures bound { IfSome result (λ k. k ≤ 17) }
{
    let left = length - block * BLOCK_LENGTH;
    if size == 0 || size > left || size > MOST_BYTES {
        return None;
    }
    if size % BLOCK_LENGTH != 0 && size != left {
        return None;
    }
    Some(size.div_ceil(BLOCK_LENGTH))
}
