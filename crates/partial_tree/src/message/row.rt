//! Rows of at most eight places, and the row above.

ghost use Rattle.std.specs.Prelude.{◌≡◌, ℕ, ◌+◌, ◌*◌, ◌^◌, ◌<◌, ◌≤◌, [], slice_index_or};
ghost use Rattle.node_maps.specs.Digest.{join};

use hashtree::{Hash, parent};
use sha256_lanes::parents;

/// The hashes of a row's places. Those past its end stand for nothing.
pub(crate) type RowHashes = [Hash; 8];

/// How many layers a row of eight places lies below one node.
pub(crate) const EIGHT_DEPTH: u32 = 3;

/// The places of a layer under the node that stands `depth` layers above: `2 ^ depth` of them.
#[derive(Clone, Copy)]
pub(crate) struct HashRow {
    pub(crate) layer: u32,
    pub(crate) depth: u32,
    pub(crate) node: u64,
}

impl HashRow {
    /// How many places it has.
    pub(crate) fn count(&self) -> u64
        requires { self.now.depth ≤ 3 }
        ensures count { result ≡ 2 ^ self.now.depth }
        ensures few { result ≤ 8 }
    {
        1 << self.depth
    }
}

/// The parents of the first `count` pairs of a row.
pub(crate) fn parents_of_row(hashes: &RowHashes, count: usize) -> RowHashes
    requires { count ≤ 4 }
    ensures { (j : ℕ) → j < count → slice_index_or result j []
        ≡ join (slice_index_or hashes.now (2 * j) []) (slice_index_or hashes.now (2 * j + 1) []) }
{
    let mut above = [[0; 32]; 8];
    'pairs: for j in 0..count {
        above[j] = parent(&hashes[2 * j], &hashes[2 * j + 1]);
    }
    above
}

/// The parents of the pairs of two rows of eight, which are computed side by side.
pub(crate) fn parents_of_rows(left: &RowHashes, right: &RowHashes) -> RowHashes
    ensures left { (j : ℕ) → j < 4 → slice_index_or result j []
        ≡ join (slice_index_or left.now (2 * j) []) (slice_index_or left.now (2 * j + 1) []) }
    ensures right { (j : ℕ) → j < 4 → slice_index_or result (4 + j) []
        ≡ join (slice_index_or right.now (2 * j) []) (slice_index_or right.now (2 * j + 1) []) }
{
    let rows = [*left, *right];
    parents(rows.as_flattened())
}
