//! A word of each message, and the operations on words (FIPS 180-4, 3.2).

ghost use Rattle.std.specs.Prelude.{◌≡◌, ℕ, ◌+◌, ◌/◌, ◌%◌, ◌^◌, ◌<◌, bit_and, bit_xor, slice_index};
ghost use Rattle.std.specs.Int.{w32, bit_not, rotate_left, rotate_right};
ghost use Rattle.lanes.specs.declared.words.TheConstants.{LANES};

use std::simd::Simd;

/// How many messages are hashed side by side.
pub const LANES: usize = 8;

/// A word of each message.
pub type Words = Simd<u32, LANES>;

/// One word, the same for each message.
#[inline(always)]
pub fn same(word: u32) -> Words
    ensures { (j : ℕ) → j < LANES → slice_index result j ≡ word }
{
    Words::splat(word)
}

/// The sum modulo 2^32.
#[inline(always)]
pub fn sum(x: Words, y: Words) -> Words
    ensures { (j : ℕ) → j < LANES
        → slice_index result j ≡ (slice_index x j + slice_index y j) % 2 ^ 32 }
{
    x + y
}

/// The bits that are set in one of the two alone.
#[inline(always)]
pub fn differing(x: Words, y: Words) -> Words
    ensures { (j : ℕ) → j < LANES
        → slice_index result j ≡ bit_xor (slice_index x j) (slice_index y j) }
{
    x ^ y
}

/// The bits that are set in both.
#[inline(always)]
pub fn common(x: Words, y: Words) -> Words
    ensures { (j : ℕ) → j < LANES
        → slice_index result j ≡ bit_and (slice_index x j) (slice_index y j) }
{
    x & y
}

/// The bits that are not set.
#[inline(always)]
pub fn inverse(x: Words) -> Words
    ensures { (j : ℕ) → j < LANES → slice_index result j ≡ bit_not w32 (slice_index x j) }
{
    !x
}

/// The bits, this far lower. Condition: less than a word's size.
#[inline(always)]
pub fn lower(x: Words, by: u32) -> Words
    requires { by < 32 }
    ensures { (j : ℕ) → j < LANES → slice_index result j ≡ slice_index x j / 2 ^ by }
{
    x >> Words::splat(by)
}

/// The bits, rotated this far to the left. Condition: from 1 to 31.
#[inline(always)]
pub fn rotated_left(x: Words, by: u32) -> Words
    requires some { 0 < by }
    requires in_word { by < 32 }
    ensures { (j : ℕ) → j < LANES
        → slice_index result j ≡ rotate_left w32 (slice_index x j) by }
{
    (x << Words::splat(by)) | (x >> Words::splat(32 - by))
}

/// The bits, rotated this far to the right. Condition: from 1 to 31.
#[inline(always)]
pub fn rotated_right(x: Words, by: u32) -> Words
    requires some { 0 < by }
    requires in_word { by < 32 }
    ensures { (j : ℕ) → j < LANES
        → slice_index result j ≡ rotate_right w32 (slice_index x j) by }
{
    (x >> Words::splat(by)) | (x << Words::splat(32 - by))
}
