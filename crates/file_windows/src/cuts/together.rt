//! Cuts that stand anywhere in a buffer, hashed side by side.

ghost use Rattle.std.specs.Prelude.{◌≡◌, ℕ, ◌+◌, ◌-◌, ◌%◌, ◌<◌, ◌≤◌, length, min, slice_index};
ghost use Rattle.file_windows.specs.Digests.{IsDigest};
ghost use Rattle.lanes.specs.declared.words.TheConstants.{LANES};

use crate::cuts::alone::digest_alone;
use lanes::LANES;
use sha1_lanes::Batch;

/// Writes the digest of each cut, filled up with zeros to the piece length: cut `i` has `sizes[i]`
/// bytes from byte `starts[i]` of the buffer on. They are hashed one in each lane, and a last one
/// that is left over by itself.
///
/// Conditions: there are as many places, sizes and digests, each cut stands in the buffer and is no
/// longer than a piece, and the piece length is a multiple of 64.
pub(crate) fn write_digests(
    buffer: &[u8],
    piece_length: usize,
    starts: &[usize],
    sizes: &[usize],
    digests: &mut [[u8; 20]],
)
    requires whole_blocks { piece_length % 64 ≡ 0 }
    requires few { length digests.old ≤ 64 }
    requires starts { length starts.now ≡ length digests.old }
    requires sizes { length sizes.now ≡ length digests.old }
    requires inside { (i : ℕ) → i < length digests.old
        → slice_index starts.now i + slice_index sizes.now i ≤ length buffer.now }
    requires fit { (i : ℕ) → i < length digests.old → slice_index sizes.now i ≤ piece_length }
    ensures digests { (i : ℕ) → i < length digests.new
        → IsDigest buffer.now piece_length starts.now sizes.now digests.new i }
    ensures count { length digests.new ≡ length digests.old }
{
    let turns = digests.len().div_ceil(LANES);
    'turns: for turn in 0..turns {
        take_turn(buffer, piece_length, starts, sizes, LANES * turn, digests);
    }
}

// Writes the digests of the cuts from this one on, as many as there are lanes, or that are left.
fn take_turn(
    buffer: &[u8],
    piece_length: usize,
    starts: &[usize],
    sizes: &[usize],
    from: usize,
    digests: &mut [[u8; 20]],
)
    requires whole_blocks { piece_length % 64 ≡ 0 }
    requires few { length digests.old ≤ 64 }
    requires starts { length starts.now ≡ length digests.old }
    requires sizes { length sizes.now ≡ length digests.old }
    requires inside { (i : ℕ) → i < length digests.old
        → slice_index starts.now i + slice_index sizes.now i ≤ length buffer.now }
    requires fit { (i : ℕ) → i < length digests.old → slice_index sizes.now i ≤ piece_length }
    requires some { from < length digests.old }
    ensures taken { (j : ℕ) → j < LANES → from + j < length digests.old
        → IsDigest buffer.now piece_length starts.now sizes.now digests.new (from + j) }
    ensures kept { (i : ℕ) → i < from
        → IsDigest buffer.now piece_length starts.now sizes.now digests.old i
        → IsDigest buffer.now piece_length starts.now sizes.now digests.new i }
    ensures count { length digests.new ≡ length digests.old }
{
    if digests.len() - from == 1 {
        digests[from] = digest_alone(buffer, starts[from], sizes[from], piece_length);
    } else {
        take_lanes(buffer, piece_length, starts, sizes, from, digests);
    }
}

// The same, side by side.
fn take_lanes(
    buffer: &[u8],
    piece_length: usize,
    starts: &[usize],
    sizes: &[usize],
    from: usize,
    digests: &mut [[u8; 20]],
)
    requires whole_blocks { piece_length % 64 ≡ 0 }
    requires few { length digests.old ≤ 64 }
    requires starts { length starts.now ≡ length digests.old }
    requires sizes { length sizes.now ≡ length digests.old }
    requires inside { (i : ℕ) → i < length digests.old
        → slice_index starts.now i + slice_index sizes.now i ≤ length buffer.now }
    requires fit { (i : ℕ) → i < length digests.old → slice_index sizes.now i ≤ piece_length }
    requires some { from < length digests.old }
    ensures taken { (j : ℕ) → j < LANES → from + j < length digests.old
        → IsDigest buffer.now piece_length starts.now sizes.now digests.new (from + j) }
    ensures kept { (i : ℕ) → i < from
        → IsDigest buffer.now piece_length starts.now sizes.now digests.old i
        → IsDigest buffer.now piece_length starts.now sizes.now digests.new i }
    ensures count { length digests.new ≡ length digests.old }
{
    let mut batch = Batch::new();
    let own_starts = from_here(starts, from);
    let own_sizes = from_here(sizes, from);
    batch.update(buffer, &own_starts, &own_sizes, piece_length);
    let found = batch.finish();
    let count = (digests.len() - from).min(LANES);
    'lanes: for j in 0..count {
        digests[from + j] = found[j];
    }
}

/// One of these numbers for each lane, from this place on; where none is left, the last one again.
pub(crate) fn from_here(values: &[usize], from: usize) -> [usize; LANES]
    requires few { length values.now ≤ 64 }
    requires some { from < length values.now }
    ensures { (j : ℕ) → j < LANES → slice_index result j
        ≡ slice_index values.now (min (from + j) (length values.now - 1)) }
{
    let mut found = [0; LANES];
    'lanes: for j in 0..LANES {
        found[j] = values[(from + j).min(values.len() - 1)];
    }
    found
}
