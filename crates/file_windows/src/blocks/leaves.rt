//! The leaves of a window of blocks that stand anywhere in a buffer.

ghost use Rattle.std.specs.Prelude.{◌≡◌, ℕ, ◌+◌, ◌*◌, ◌<◌, ◌≤◌, length, slice_index};
ghost use Rattle.file_windows.specs.Window.{IsLeafOfBlock, IsOrder};

use crate::blocks::order::by_length;
use sha256_lanes::digests_at;

/// How many blocks a window has at most.
pub const WINDOW: usize = 64;

/// Writes the leaf of each block: block `i` has `sizes[i]` bytes from byte `starts[i]` of the
/// buffer on, and leaf `i` is its digest. They are hashed eight at a time, the longest first.
///
/// Conditions: there are as many places, sizes and leaves, a window of them at most, and each block
/// stands in the buffer.
pub(crate) fn leaves_of(buffer: &[u8], starts: &[usize], sizes: &[usize], leaves: &mut [[u8; 32]])
    requires few { length leaves.old ≤ 64 }
    requires starts { length starts.now ≡ length leaves.old }
    requires sizes { length sizes.now ≡ length leaves.old }
    requires inside { (i : ℕ) → i < length leaves.old
        → slice_index starts.now i + slice_index sizes.now i ≤ length buffer.now }
    ensures leaves { (i : ℕ) → i < length leaves.new
        → IsLeafOfBlock buffer.now starts.now sizes.now leaves.new i }
    ensures count { length leaves.new ≡ length leaves.old }
{
    let order = by_length(sizes);
    let turns = leaves.len().div_ceil(8);
    'turns: for turn in 0..turns {
        take_eight(buffer, starts, sizes, &order, 8 * turn, leaves);
    }
}

// Writes the leaves of the eight blocks from this place of the order on, or of those that are left.
fn take_eight(
    buffer: &[u8],
    starts: &[usize],
    sizes: &[usize],
    order: &[usize; WINDOW],
    from: usize,
    leaves: &mut [[u8; 32]],
)
    requires few { length leaves.old ≤ 64 }
    requires starts { length starts.now ≡ length leaves.old }
    requires sizes { length sizes.now ≡ length leaves.old }
    requires inside { (i : ℕ) → i < length leaves.old
        → slice_index starts.now i + slice_index sizes.now i ≤ length buffer.now }
    requires order { IsOrder order.now (length leaves.old) }
    requires some { from < length leaves.old }
    ensures taken { (j : ℕ) → j < 8 → from + j < length leaves.old
        → IsLeafOfBlock buffer.now starts.now sizes.now leaves.new
        (slice_index order.now (from + j)) }
    ensures kept { (i : ℕ) → IsLeafOfBlock buffer.now starts.now sizes.now leaves.old i
        → IsLeafOfBlock buffer.now starts.now sizes.now leaves.new i }
    ensures count { length leaves.new ≡ length leaves.old }
{
    let blocks = next_eight(order, from, leaves.len());
    let own_starts = chosen(starts, &blocks);
    let own_sizes = chosen(sizes, &blocks);
    let digests = digests_at(buffer, &own_starts, &own_sizes);
    'lanes: for j in 0..8 {
        leaves[blocks[j]] = digests[j];
    }
}

// Eight numbers from this place of the order on; where none is left, the last one again.
fn next_eight(order: &[usize; WINDOW], from: usize, count: usize) -> [usize; 8]
    requires few { count ≤ 64 }
    requires order { IsOrder order.now count }
    requires some { from < count }
    ensures below { (j : ℕ) → j < 8 → slice_index result j < count }
    ensures next { (j : ℕ) → j < 8 → from + j < count
        → slice_index result j ≡ slice_index order.now (from + j) }
{
    let mut found = [0; 8];
    'lanes: for j in 0..8 {
        found[j] = order[(from + j).min(count - 1)];
    }
    found
}

// Eight of these numbers.
fn chosen(values: &[usize], places: &[usize; 8]) -> [usize; 8]
    requires { (j : ℕ) → j < 8 → slice_index places.now j < length values.now }
    ensures { (j : ℕ) → j < 8
        → slice_index result j ≡ slice_index values.now (slice_index places.now j) }
{
    let mut found = [0; 8];
    'lanes: for j in 0..8 {
        found[j] = values[places[j]];
    }
    found
}
