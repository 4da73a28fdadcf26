//! The slots in which the stretches of pieces wait for their step.

ghost use Rattle.std.specs.Prelude.{◌≡◌, ℕ, ◌+◌, ◌*◌, ◌^◌, ◌<◌, ◌≤◌, slice_index};
ghost use Rattle.lanes.specs.declared.words.TheConstants.{LANES};
ghost use Rattle.pieces.specs.Slot.{slot_of};

use lanes::LANES;

/// How many slots there are: as many for each stretch as its number says, and one for stretch 0.
pub(crate) const SLOTS: usize = LANES * (LANES - 1) / 2 + 1;

/// The slot in which a stretch of a piece waits.
pub(crate) fn slot_of(piece: u64, stretch: usize) -> usize
    requires { stretch < LANES }
    ensures slot { result ≡ slot_of piece stretch }
    ensures bound { result < SLOTS }
{
    if stretch == 0 {
        return SLOTS - 1;
    }
    stretch * (stretch - 1) / 2 + (piece % stretch as u64) as usize
}

/// Where the stretches begin that a step takes, each in its lane, if a slot has this many bytes.
pub(crate) fn starts_of(step: u64, size: usize) -> [usize; LANES]
    requires { SLOTS * size < 2 ^ 64 }
    ensures starts { (j : ℕ) → j < LANES → slice_index result j ≡ slot_of step j * size }
    ensures inside { (j : ℕ) → j < LANES → slice_index result j + size ≤ SLOTS * size }
{
    let mut starts = [0; LANES];
    'lanes: for j in 0..LANES {
        starts[j] = slot_of(step, j) * size;
    }
    starts
}
