//! The standard's functions of three words (FIPS 180-4, 4.1.1 and 4.1.2), for each message.

ghost use Rattle.std.specs.Prelude.{◌≡◌, ℕ, ◌<◌, bit_and, bit_xor, slice_index};
ghost use Rattle.std.specs.Int.{w32, bit_not};
ghost use Rattle.lanes.specs.Lanes.{ch, maj};
ghost use Rattle.lanes.specs.declared.words.TheConstants.{LANES};

use crate::words::{Words, common, differing, inverse};

/// Ch: the bits of `y` where `x` is set, and those of `z` elsewhere.
#[inline(always)]
pub fn choice(x: Words, y: Words, z: Words) -> Words
    ensures { (j : ℕ) → j < LANES
        → slice_index result j ≡ ch (slice_index x j) (slice_index y j) (slice_index z j) }
{
    let chosen = common(x, y);
    let elsewhere = inverse(x);
    let other = common(elsewhere, z);
    differing(chosen, other)
}

/// Parity: the bits that are set in one of the three alone, or in all.
#[inline(always)]
pub fn parity(x: Words, y: Words, z: Words) -> Words
    ensures { (j : ℕ) → j < LANES → slice_index result j
        ≡ bit_xor (bit_xor (slice_index x j) (slice_index y j)) (slice_index z j) }
{
    let two = differing(x, y);
    differing(two, z)
}

/// Maj: the bit that two of three have. It is that of `y`, unless both others differ from it. Where
/// `y` and `z` differ is known from the round before, in which they were `x` and `y`.
#[inline(always)]
pub fn majority(x: Words, y: Words, z: Words) -> Words
    ensures { (j : ℕ) → j < LANES
        → slice_index result j ≡ maj (slice_index x j) (slice_index y j) (slice_index z j) }
{
    let before = differing(x, y);
    let after = differing(y, z);
    let outvoted = common(before, after);
    differing(y, outvoted)
}
