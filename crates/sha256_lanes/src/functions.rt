//! The standard's functions of one word (FIPS 180-4, 4.1.2), for each message.

ghost use Rattle.std.specs.Prelude.{◌≡◌, ℕ, ◌<◌, slice_index};
ghost use Rattle.sha2.specs.Sha256.{big_sigma0, big_sigma1, small_sigma0, small_sigma1};
ghost use Rattle.lanes.specs.declared.words.TheConstants.{LANES};

use lanes::{Words, differing, lower, rotated_right};

/// The upper case sigma 0.
#[inline(always)]
pub(crate) fn upper_sigma0(x: Words) -> Words
    ensures { (j : ℕ) → j < LANES → slice_index result j ≡ big_sigma0 (slice_index x j) }
{
    let first = rotated_right(x, 2);
    let second = rotated_right(x, 13);
    let third = rotated_right(x, 22);
    let two = differing(first, second);
    differing(two, third)
}

/// The upper case sigma 1.
#[inline(always)]
pub(crate) fn upper_sigma1(x: Words) -> Words
    ensures { (j : ℕ) → j < LANES → slice_index result j ≡ big_sigma1 (slice_index x j) }
{
    let first = rotated_right(x, 6);
    let second = rotated_right(x, 11);
    let third = rotated_right(x, 25);
    let two = differing(first, second);
    differing(two, third)
}

/// The lower case sigma 0.
#[inline(always)]
pub(crate) fn lower_sigma0(x: Words) -> Words
    ensures { (j : ℕ) → j < LANES → slice_index result j ≡ small_sigma0 (slice_index x j) }
{
    let first = rotated_right(x, 7);
    let second = rotated_right(x, 18);
    let third = lower(x, 3);
    let two = differing(first, second);
    differing(two, third)
}

/// The lower case sigma 1.
#[inline(always)]
pub(crate) fn lower_sigma1(x: Words) -> Words
    ensures { (j : ℕ) → j < LANES → slice_index result j ≡ small_sigma1 (slice_index x j) }
{
    let first = rotated_right(x, 17);
    let second = rotated_right(x, 19);
    let third = lower(x, 10);
    let two = differing(first, second);
    differing(two, third)
}
