//! The words of blocks of bytes (FIPS 180-4, 5.2.1).

ghost use Rattle.std.specs.Prelude.{◌≡◌, ℕ, ◌+◌, ◌*◌, ◌^◌, ◌<◌, ◌≤◌, length, slice_index};
ghost use Rattle.lanes.specs.Lanes.{word_at, word_in};
ghost use Rattle.lanes.specs.declared.words.TheConstants.{LANES};

use crate::rows::four_words_at;
use crate::words::{LANES, Words, same};

/// The sixteen words of a block of each message.
pub type Block = [Words; 16];

// The word at this byte, the high byte first.
fn word(bytes: &[u8], at: usize) -> u32
    requires { at + 4 ≤ length bytes.now }
    ensures { result ≡ word_at bytes.now at }
{
    u32::from_be_bytes([bytes[at], bytes[at + 1], bytes[at + 2], bytes[at + 3]])
}

/// The block at this byte of each message. Conditions: they stand one after another, each of `size`
/// bytes, and have the block.
#[inline(always)]
pub fn block_at(messages: &[u8], size: usize, at: usize) -> Block
    requires in_message { at + 64 ≤ size }
    requires all { length messages.now ≡ LANES * size }
    ensures { (j k : ℕ) → j < LANES → k < 16
        → word_in result k j ≡ word_at messages.now (j * size + (at + 4 * k)) }
{
    block_of_places(messages, &places(size), at)
}

// Where messages of this size begin, which stand one after another.
#[inline(always)]
fn places(size: usize) -> [usize; LANES]
    requires { LANES * size < 2 ^ 64 }
    ensures { (j : ℕ) → j < LANES → slice_index result j ≡ j * size }
{
    let mut starts = [0; LANES];
    'messages: for j in 0..LANES {
        starts[j] = j * size;
    }
    starts
}

/// The block at this byte of each message. Conditions: they begin at these places of the buffer,
/// and have the block.
#[inline(always)]
pub fn block_of_places(buffer: &[u8], starts: &[usize; LANES], at: usize) -> Block
    requires { (j : ℕ) → j < LANES → slice_index starts.now j + (at + 64) ≤ length buffer.now }
    ensures { (j k : ℕ) → j < LANES → k < 16
        → word_in result k j ≡ word_at buffer.now (slice_index starts.now j + (at + 4 * k)) }
{
    let [w0, w1, w2, w3] = four_words_at(buffer, starts, at);
    let [w4, w5, w6, w7] = four_words_at(buffer, starts, at + 16);
    let [w8, w9, w10, w11] = four_words_at(buffer, starts, at + 32);
    let [w12, w13, w14, w15] = four_words_at(buffer, starts, at + 48);
    [
        w0, w1, w2, w3, w4, w5, w6, w7, w8, w9, w10, w11, w12, w13, w14, w15,
    ]
}

/// The words of one block, the same for each message.
pub fn same_block(block: &[u8; 64]) -> Block
    ensures { (j k : ℕ) → j < LANES → k < 16 → word_in result k j ≡ word_at block.now (4 * k) }
{
    let mut words = [Words::splat(0); 16];
    'words: for k in 0..16 {
        words[k] = same(word(block, 4 * k));
    }
    words
}
