//! Cuts that stand anywhere in a buffer, hashed as they are and filled up with zeros.

ghost use Rattle.std.specs.Prelude.{◌≡◌, ℕ, ◌+◌, ◌%◌, ◌<◌, ◌≤◌, [], length, slice_index, slice_index_or};
ghost use Rattle.file_windows.specs.Digests.{IsDigest, IsOwnDigest};
ghost use Rattle.lanes.specs.declared.words.TheConstants.{LANES};

use crate::cuts::alone::digests_alone;
use crate::cuts::stretches::digests_of_lanes;
use crate::cuts::together::from_here;
use lanes::LANES;

// Cuts that stand in a buffer.
#[derive(Clone, Copy)]
struct PlacedCuts<'a> {
    buffer: &'a [u8],
    starts: &'a [usize],
    sizes: &'a [usize],
}

/// Writes two digests of each cut: that of its own bytes, and that of the cut filled up with zeros
/// to the piece length. They are hashed one in each lane, and a last one that is left over by
/// itself. Conditions: as for [`write_digests`](crate::cuts::together::write_digests), and there
/// are as many of both.
pub(crate) fn write_both(
    buffer: &[u8],
    piece_length: usize,
    starts: &[usize],
    sizes: &[usize],
    own: &mut [[u8; 20]],
    digests: &mut [[u8; 20]],
)
    requires whole_blocks { piece_length % 64 ≡ 0 }
    requires few { length digests.old ≤ 64 }
    requires own { length own.old ≡ length digests.old }
    requires starts { length starts.now ≡ length digests.old }
    requires sizes { length sizes.now ≡ length digests.old }
    requires inside { (i : ℕ) → i < length digests.old
        → slice_index starts.now i + slice_index sizes.now i ≤ length buffer.now }
    requires fit { (i : ℕ) → i < length digests.old → slice_index sizes.now i ≤ piece_length }
    ensures own { (i : ℕ) → i < length digests.old
        → IsOwnDigest buffer.now starts.now sizes.now own.new i }
    ensures digests { (i : ℕ) → i < length digests.old
        → IsDigest buffer.now piece_length starts.now sizes.now digests.new i }
    ensures own_count { length own.new ≡ length own.old }
    ensures count { length digests.new ≡ length digests.old }
{
    let cuts = PlacedCuts {
        buffer,
        starts,
        sizes,
    };
    let turns = digests.len().div_ceil(LANES);
    'turns: for turn in 0..turns {
        take_turn(cuts, piece_length, LANES * turn, own, digests);
    }
}

// Writes the digests of the cuts from this one on, as many as there are lanes, or that are left.
fn take_turn(
    cuts: PlacedCuts<'_>,
    piece_length: usize,
    from: usize,
    own: &mut [[u8; 20]],
    digests: &mut [[u8; 20]],
)
    requires whole_blocks { piece_length % 64 ≡ 0 }
    requires few { length digests.old ≤ 64 }
    requires own { length own.old ≡ length digests.old }
    requires starts { length cuts.starts.now ≡ length digests.old }
    requires sizes { length cuts.sizes.now ≡ length digests.old }
    requires inside { (i : ℕ) → i < length digests.old
        → slice_index cuts.starts.now i + slice_index cuts.sizes.now i ≤ length cuts.buffer.now }
    requires fit { (i : ℕ) → i < length digests.old
        → slice_index cuts.sizes.now i ≤ piece_length }
    requires some { from < length digests.old }
    ensures own { (j : ℕ) → j < LANES → from + j < length digests.old
        → IsOwnDigest cuts.entry.buffer.now cuts.entry.starts.now cuts.entry.sizes.now own.new
        (from + j) }
    ensures digests { (j : ℕ) → j < LANES → from + j < length digests.old
        → IsDigest cuts.entry.buffer.now piece_length cuts.entry.starts.now
        cuts.entry.sizes.now digests.new (from + j) }
    ensures own_kept { (i : ℕ) → i < from
        → slice_index_or own.new i [] ≡ slice_index_or own.old i [] }
    ensures kept { (i : ℕ) → i < from
        → slice_index_or digests.new i [] ≡ slice_index_or digests.old i [] }
    ensures own_count { length own.new ≡ length own.old }
    ensures count { length digests.new ≡ length digests.old }
{
    let PlacedCuts {
        buffer,
        starts,
        sizes,
    } = cuts;
    if digests.len() - from == 1 {
        let (plain, filled) = digests_alone(buffer, starts[from], sizes[from], piece_length);
        own[from] = plain;
        digests[from] = filled;
    } else {
        let lane_starts = from_here(starts, from);
        let lane_sizes = from_here(sizes, from);
        let found = digests_of_lanes(buffer, &lane_starts, &lane_sizes, piece_length);
        put_digests(own, from, &found.own);
        put_digests(digests, from, &found.filled);
    }
}

// Writes these digests from this place on, as far as the list goes.
fn put_digests(digests: &mut [[u8; 20]], from: usize, found: &[[u8; 20]; LANES])
    requires { from ≤ length digests.old }
    ensures put { (j : ℕ) → j < LANES → from + j < length digests.old
        → slice_index_or digests.new (from + j) [] ≡ slice_index_or found.now j [] }
    ensures kept { (i : ℕ) → i < from
        → slice_index_or digests.new i [] ≡ slice_index_or digests.old i [] }
    ensures count { length digests.new ≡ length digests.old }
{
    let count = (digests.len() - from).min(LANES);
    'lanes: for j in 0..count {
        digests[from + j] = found[j];
    }
}
