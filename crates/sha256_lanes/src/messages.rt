//! Messages of one length, and pairs of hashes.

ghost use Rattle.std.specs.Prelude.{◌≡◌, ℕ, ◌+◌, ◌*◌, ◌%◌, ◌^◌, ◌<◌, ◌≤◌, ◌++◌, [], drop, length, slice_index_or, take};
ghost use Rattle.sha2.specs.Sha256.{compress, final_hash, initial_hash_256, sha256};
ghost use Rattle.sha256_lanes.specs.Lanes.{IsRowOfHashes, message, sha256_state_in};
ghost use Rattle.lanes.specs.declared.words.TheConstants.{LANES};

use crate::compression::{compress, compress_padding, initial_state};
use crate::padding::padding_block;
use crate::rounds::State;
use lanes::{LANES, block_at, digests_of, same_block};

/// The SHA-256 digests of messages of `size` bytes each, which stand one after another.
///
/// Conditions: the messages are whole blocks of 64 bytes, each shorter than 2^32 bytes, and there
/// is one for each lane.
pub fn digests(messages: &[u8], size: usize) -> [[u8; 32]; LANES]
    requires whole_blocks { size % 64 ≡ 0 }
    requires short { size < 2 ^ 32 }
    requires all { length messages.now ≡ LANES * size }
    ensures { (j : ℕ) → j < LANES
        → slice_index_or result j [] ≡ sha256 (message messages.now size j) }
{
    let state = hash_values(messages, size);
    digests_of(&state)
}

/// The SHA-256 digests of pairs of hashes, which stand one after another: the nodes of a hash tree
/// over these. Condition: there is a pair for each lane.
pub fn parents(hashes: &[[u8; 32]]) -> [[u8; 32]; LANES]
    requires { length hashes.now ≡ 2 * LANES }
    ensures { (j : ℕ) → j < LANES → slice_index_or result j [] ≡ sha256
        (slice_index_or hashes.now (2 * j) [] ++ slice_index_or hashes.now (2 * j + 1) []) }
{
    recall_hashes(hashes);
    let state = pair_values(hashes.as_flattened());
    digests_of(&state)
}

// The hash value of each message, its padding included.
fn hash_values(messages: &[u8], size: usize) -> State
    requires whole_blocks { size % 64 ≡ 0 }
    requires short { size < 2 ^ 32 }
    requires all { length messages.now ≡ LANES * size }
    ensures { (j : ℕ) → j < LANES
        → sha256_state_in j result ≡ final_hash initial_hash_256 (message messages.now size j) }
{
    let mut state = initial_state();
    let count = size / 64;
    'blocks: for block in 0..count {
        take_block(&mut state, messages, size, 64 * block);
    }
    let words = same_block(&padding_block(size as u64));
    compress(&mut state, words);
    state
}

// The hash value of each message of 64 bytes, its padding included.
fn pair_values(messages: &[u8]) -> State
    requires { length messages.now ≡ 64 * LANES }
    ensures { (j : ℕ) → j < LANES
        → sha256_state_in j result ≡ final_hash initial_hash_256 (message messages.now 64 j) }
{
    let mut state = initial_state();
    take_block(&mut state, messages, 64, 0);
    compress_padding(&mut state);
    state
}

// Takes the block at this byte of each message.
#[inline(always)]
fn take_block(state: &mut State, messages: &[u8], size: usize, at: usize)
    requires in_message { at + 64 ≤ size }
    requires all { length messages.now ≡ LANES * size }
    ensures { (j : ℕ) → j < LANES → sha256_state_in j state.new
        ≡ compress (sha256_state_in j state.old) (take 64 (drop at (message messages.now size j))) }
{
    let words = block_at(messages, size, at);
    compress(state, words);
}

// Shows the prover that each hash has 32 bytes, as its type says.
fn recall_hashes(hashes: &[[u8; 32]])
    ensures { IsRowOfHashes hashes.now }
{}
