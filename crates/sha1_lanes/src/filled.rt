//! The blocks of messages of any lengths in a buffer, filled up with zeros to one length.

ghost use Rattle.std.specs.Prelude.{◌≡◌, ℕ, ◌+◌, ◌*◌, ◌^◌, ◌<◌, ◌≤◌, ◌++◌, drop, length, replicate, slice_index, take};
ghost use Rattle.sha1.specs.Sha1.{compress};
ghost use Rattle.sha1_lanes.specs.Batches.{bytes_at, state_in};
ghost use Rattle.lanes.specs.declared.words.TheConstants.{LANES};

use crate::compression::compress;
use crate::rounds::State;
use lanes::{LANES, Words, block_at, block_of_places};

// A block of each message.
const ROW: usize = 64 * LANES;

// A byte of the message, or a zero past its end.
#[inline(always)]
fn byte_or_zero(message: &[u8], at: usize) -> u8
    ensures { result ≡ slice_index message.now at }
{
    if at < message.len() { message[at] } else { 0 }
}

// Puts a block that is the message's alone at this place of a row.
#[inline(always)]
fn put_whole_block(row: &mut [u8; ROW], place: usize, message: &[u8], at: usize)
    requires place { place < LANES }
    requires whole { at + 64 ≤ length message.now }
    ensures here { (i : ℕ) → i < 64
        → slice_index row.new (64 * place + i) ≡ slice_index message.now (at + i) }
    ensures before { (i : ℕ) → i < 64 * place → slice_index row.new i ≡ slice_index row.old i }
{
    row[64 * place..64 * place + 64].copy_from_slice(&message[at..at + 64]);
}

// Puts a block that has zeros past the message at this place of a row.
#[inline(never)]
fn put_filled_block(row: &mut [u8; ROW], place: usize, message: &[u8], at: usize)
    requires place { place < LANES }
    requires room { at + 64 < 2 ^ 64 }
    ensures here { (i : ℕ) → i < 64
        → slice_index row.new (64 * place + i) ≡ slice_index message.now (at + i) }
    ensures before { (i : ℕ) → i < 64 * place → slice_index row.new i ≡ slice_index row.old i }
{
    'bytes: for i in 0..64 {
        row[64 * place + i] = byte_or_zero(message, at + i);
    }
}

// Puts a block of zeros at this place of a row.
#[inline(always)]
fn put_zeros(row: &mut [u8; ROW], place: usize)
    requires { place < LANES }
    ensures here { (i : ℕ) → i < 64 → slice_index row.new (64 * place + i) ≡ 0 }
    ensures before { (i : ℕ) → i < 64 * place → slice_index row.new i ≡ slice_index row.old i }
{
    row[64 * place..64 * place + 64].copy_from_slice(&[0; 64]);
}

// Puts the block at this byte of the message, filled up with zeros, at this place of a row.
#[inline(always)]
#[tactic(auto, using(crate::proofs::Zeros::past_end))]
fn put_block(row: &mut [u8; ROW], place: usize, message: &[u8], at: usize)
    requires place { place < LANES }
    requires room { at + 64 < 2 ^ 64 }
    ensures here { (i : ℕ) → i < 64
        → slice_index row.new (64 * place + i) ≡ slice_index message.now (at + i) }
    ensures before { (i : ℕ) → i < 64 * place → slice_index row.new i ≡ slice_index row.old i }
{
    if at + 64 <= message.len() {
        put_whole_block(row, place, message, at);
    } else if message.len() <= at {
        put_zeros(row, place);
    } else {
        put_filled_block(row, place, message, at);
    }
}

// Takes a block of each message, of which some have zeros in it.
#[inline(always)]
fn take_mixed_blocks(
    state: &mut State,
    buffer: &[u8],
    starts: &[usize; LANES],
    sizes: &[usize; LANES],
    at: usize,
)
    requires room { at + 64 < 2 ^ 64 }
    requires inside { (j : ℕ) → j < LANES
        → slice_index starts.now j + slice_index sizes.now j ≤ length buffer.now }
    ensures { (j : ℕ) → j < LANES → (zeros : ℕ) → state_in j state.new
        ≡ compress (state_in j state.old) (take 64 (drop at
        (bytes_at buffer.now (slice_index starts.now j) (slice_index sizes.now j)
        ++ replicate zeros 0))) }
{
    let mut row = [0; ROW];
    'places: for j in 0..LANES {
        put_block(&mut row, j, &buffer[starts[j]..starts[j] + sizes[j]], at);
    }
    let words = block_at(&row, 64, 0);
    compress(state, words);
}

// Takes a block of each message. Condition: it has no zeros past any.
#[inline(always)]
fn take_whole_blocks(
    state: &mut State,
    buffer: &[u8],
    starts: &[usize; LANES],
    sizes: &[usize; LANES],
    at: usize,
)
    requires inside { (j : ℕ) → j < LANES
        → slice_index starts.now j + slice_index sizes.now j ≤ length buffer.now }
    requires whole { (j : ℕ) → j < LANES → at + 64 ≤ slice_index sizes.now j }
    ensures { (j : ℕ) → j < LANES → (zeros : ℕ) → state_in j state.new
        ≡ compress (state_in j state.old) (take 64 (drop at
        (bytes_at buffer.now (slice_index starts.now j) (slice_index sizes.now j)
        ++ replicate zeros 0))) }
{
    let words = block_of_places(buffer, starts, at);
    compress(state, words);
}

// Takes a block of zeros of each message. Condition: all messages end before it.
#[inline(always)]
fn take_zeros(
    state: &mut State,
    buffer: &[u8],
    starts: &[usize; LANES],
    sizes: &[usize; LANES],
    at: usize,
)
    requires past { (j : ℕ) → j < LANES → slice_index sizes.now j ≤ at }
    ensures { (j : ℕ) → j < LANES → (zeros : ℕ) → state_in j state.new
        ≡ compress (state_in j state.old) (take 64 (drop at
        (bytes_at buffer.now (slice_index starts.now j) (slice_index sizes.now j)
        ++ replicate zeros 0))) }
{
    compress(state, [Words::splat(0); 16]);
}

/// Takes the block at this byte of each message, filled up with zeros: `least` and `most` are
/// bounds of their sizes.
#[inline(always)]
pub(crate) fn take_filled_block(
    state: &mut State,
    buffer: &[u8],
    starts: &[usize; LANES],
    sizes: &[usize; LANES],
    bounds: (usize, usize),
    at: usize,
)
    requires room { at + 64 < 2 ^ 64 }
    requires inside { (j : ℕ) → j < LANES
        → slice_index starts.now j + slice_index sizes.now j ≤ length buffer.now }
    requires least { (j : ℕ) → j < LANES → bounds.0 ≤ slice_index sizes.now j }
    requires most { (j : ℕ) → j < LANES → slice_index sizes.now j ≤ bounds.1 }
    ensures { (j : ℕ) → j < LANES → (zeros : ℕ) → state_in j state.new
        ≡ compress (state_in j state.old) (take 64 (drop at
        (bytes_at buffer.now (slice_index starts.now j) (slice_index sizes.now j)
        ++ replicate zeros 0))) }
{
    if at + 64 <= bounds.0 {
        take_whole_blocks(state, buffer, starts, sizes, at);
    } else if at < bounds.1 {
        take_mixed_blocks(state, buffer, starts, sizes, at);
    } else {
        take_zeros(state, buffer, starts, sizes, at);
    }
}

/// The least and the greatest of the sizes.
pub(crate) fn bounds_of(sizes: &[usize; LANES]) -> (usize, usize)
    ensures least { (j : ℕ) → j < LANES → result.0 ≤ slice_index sizes.now j }
    ensures most { (j : ℕ) → j < LANES → slice_index sizes.now j ≤ result.1 }
{
    let mut least = sizes[0];
    let mut most = sizes[0];
    'sizes: for j in 1..LANES {
        least = least.min(sizes[j]);
        most = most.max(sizes[j]);
    }
    (least, most)
}
