//! Messages of any lengths, anywhere in a buffer.

ghost use Rattle.std.specs.Prelude.{◌≡◌, ℕ, ◌+◌, ◌*◌, ◌^◌, ◌<◌, ◌≤◌, ◌≢◌, [], drop, length, slice_index, slice_index_or, take};
ghost use Rattle.sha2.specs.Sha256.{compress, padded_message, sha256, word_at};
ghost use Rattle.lanes.specs.Lanes.{bytes_at, bytes_in, word_in};
ghost use Rattle.sha256_lanes.specs.Lanes.{padded_block_count, sha256_state_in};
ghost use Rattle.lanes.specs.declared.words.TheConstants.{LANES};

use crate::compression::{compress, initial_state};
use crate::padded::{ROW, block_count, put_block};
use crate::rounds::State;
use lanes::{LANES, block_at, block_of_places, digest_of};

/// The SHA-256 digests of messages: message `j` has `sizes[j]` bytes from byte `starts[j]` of
/// the buffer on. They may overlap, and be empty. Condition: each stands in the buffer.
///
/// Each lane takes the time of the longest message, so messages of like lengths belong together.
pub fn digests_at(
    buffer: &[u8],
    starts: &[usize; LANES],
    sizes: &[usize; LANES],
) -> [[u8; 32]; LANES]
    requires { (j : ℕ) → j < LANES
        → slice_index starts.now j + slice_index sizes.now j ≤ length buffer.now }
    ensures { (j : ℕ) → j < LANES → slice_index_or result j []
        ≡ sha256 (bytes_at buffer.now (slice_index starts.now j) (slice_index sizes.now j)) }
{
    let mut digests = [[0; 32]; LANES];
    let mut state = initial_state();
    let least = fewest_whole_blocks(sizes);
    let most = most_blocks(buffer, starts, sizes);
    // No message has padding in these blocks.
    'whole: for block in 0..least {
        take_whole_blocks(&mut state, buffer, starts, sizes, block);
    }
    'padded: for block in least..most {
        take_blocks(&mut state, buffer, starts, sizes, block);
        keep_finished(&mut digests, &state, sizes, block);
    }
    digests
}

// The number of blocks of bytes that each message has.
fn fewest_whole_blocks(sizes: &[usize; LANES]) -> usize
    ensures { (j : ℕ) → j < LANES → 64 * result ≤ slice_index sizes.now j }
{
    let mut least = sizes[0] / 64;
    'sizes: for j in 1..LANES {
        least = least.min(sizes[j] / 64);
    }
    least
}

// The number of blocks of the longest message, its padding included.
fn most_blocks(buffer: &[u8], starts: &[usize; LANES], sizes: &[usize; LANES]) -> usize
    requires { (j : ℕ) → j < LANES
        → slice_index starts.now j + slice_index sizes.now j ≤ length buffer.now }
    ensures { (j : ℕ) → j < LANES → padded_block_count (slice_index sizes.now j) ≤ result }
{
    let mut most = 0;
    'sizes: for j in 0..LANES {
        let message = &buffer[starts[j]..starts[j] + sizes[j]];
        most = most.max(block_count(message.len()));
    }
    most
}

// Takes a block of each message. Condition: it has no padding in any.
#[inline(always)]
fn take_whole_blocks(
    state: &mut State,
    buffer: &[u8],
    starts: &[usize; LANES],
    sizes: &[usize; LANES],
    block: usize,
)
    requires inside { (j : ℕ) → j < LANES
        → slice_index starts.now j + slice_index sizes.now j ≤ length buffer.now }
    requires whole { (j : ℕ) → j < LANES → 64 * (block + 1) ≤ slice_index sizes.now j }
    ensures { (j : ℕ) → j < LANES
        → sha256_state_in j state.new ≡ compress (sha256_state_in j state.old)
        (take 64 (drop (64 * block) (padded_message
        (bytes_at buffer.now (slice_index starts.now j) (slice_index sizes.now j))))) }
{
    let words = block_of_places(buffer, starts, 64 * block);
    compress(state, words);
}

// Takes a block of each message that has this many, padding included.
#[inline(always)]
fn take_blocks(
    state: &mut State,
    buffer: &[u8],
    starts: &[usize; LANES],
    sizes: &[usize; LANES],
    block: usize,
)
    requires { (j : ℕ) → j < LANES
        → slice_index starts.now j + slice_index sizes.now j ≤ length buffer.now }
    ensures { (j : ℕ) → j < LANES → block < padded_block_count (slice_index sizes.now j)
        → sha256_state_in j state.new ≡ compress (sha256_state_in j state.old)
        (take 64 (drop (64 * block) (padded_message
        (bytes_at buffer.now (slice_index starts.now j) (slice_index sizes.now j))))) }
{
    let mut row = [0; ROW];
    'places: for j in 0..LANES {
        put_block(&mut row, j, &buffer[starts[j]..starts[j] + sizes[j]], block);
    }
    let words = block_at(&row, 64, 0);
    compress(state, words);
}

// Keeps the digest of each message whose last block this was.
#[inline(always)]
fn keep_finished(
    digests: &mut [[u8; 32]; LANES],
    state: &State,
    sizes: &[usize; LANES],
    block: usize,
)
    requires { (j : ℕ) → j < LANES → slice_index sizes.now j < 2 ^ 63 }
    ensures finished { (j : ℕ) → j < LANES
        → padded_block_count (slice_index sizes.now j) ≡ block + 1
        → slice_index_or digests.new j [] ≡ bytes_in j state.now 8 }
    ensures before { (j : ℕ) → j < LANES → padded_block_count (slice_index sizes.now j) < block + 1
        → slice_index_or digests.new j [] ≡ slice_index_or digests.old j [] }
{
    'messages: for j in 0..LANES {
        keep_digest(digests, state, j, sizes[j], block);
    }
}

// Keeps the digest of this message, of this size, if this was its last block.
#[inline(always)]
fn keep_digest(
    digests: &mut [[u8; 32]; LANES],
    state: &State,
    place: usize,
    size: usize,
    block: usize,
)
    requires place { place < LANES }
    requires size { size < 2 ^ 63 }
    ensures finished { padded_block_count size ≡ block + 1
        → slice_index_or digests.new place [] ≡ bytes_in place state.now 8 }
    ensures before { padded_block_count size < block + 1
        → slice_index_or digests.new place [] ≡ slice_index_or digests.old place [] }
    ensures others { (i : ℕ) → i ≢ place
        → slice_index_or digests.new i [] ≡ slice_index_or digests.old i [] }
{
    if block_count(size) - 1 == block {
        digests[place] = digest_of(state, place);
    }
}
