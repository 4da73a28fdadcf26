//! Hashes as evidence of the nodes of a tree (BEP 52, "hash request", "hashes").
//!
//! ```text
//!   layer
//!     3                    T                      T   the top: it must be known
//!                     /         \
//!     2             c            u1               u1  the second uncle, nearest the root
//!                /     \
//!     1        c        u0                        u0  the first uncle, beside the range's node
//!            /   \
//!     0     b     b     .     Z                   b   the base range, Z a pad past the file's end
//! ```
//!
//! The hashes of the base range and the uncles are given. What lies between them and the top, the
//! nodes `c`, is computed.

ghost use Rattle.std.specs.Prelude.{◌≡◌, ℕ, ◌+◌, ◌-◌, ◌*◌, ◌/◌, ◌%◌, ◌^◌, ◌<◌, ◌≤◌, ◌++◌};
ghost use Rattle.partial_tree.specs.Claims.{sibling, base_hash, uncle_hash, given, claims};

use crate::message::row::{HashRow, RowHashes};
use hashtree::Hash;

/// Hashes as evidence: a base range of `2 ^ span` places, whose hashes may stop early, and then the
/// uncles.
#[derive(Clone, Copy)]
pub(crate) struct Evidence<'a> {
    /// The layer of the base range.
    pub(crate) base: u32,
    /// The number of its first place.
    pub(crate) index: u64,
    /// Its length is two to this power.
    pub(crate) span: u32,
    /// The hashes of the base range, and then the uncles.
    pub(crate) hashes: &'a [Hash],
    /// Stands for the hashes that the base range lacks at its end.
    pub(crate) pad: Hash,
}

impl<'a> Evidence<'a> {
    ghost use Rattle.node_maps.specs.Places.{IsKnown};
    ghost use Rattle.partial_tree.specs.Evidence.{range_of, hashes_of, given_by, row_first, row_height};
    ghost use Rattle.partial_tree.specs.FoldedRows.{AreClaimedIn, place_in_row};

    /// The hash that is given for a place, if there is one.
    pub(crate) fn given(&self, layer: u32, index: u64) -> Option<Hash>
        requires index { self.now.index < 2 ^ 32 }
        requires base { self.now.base ≤ 32 }
        requires span { self.now.span ≤ 32 }
        requires layer { layer ≤ 32 }
        ensures { result ≡ given_by self.now layer index }
    {
        if layer == self.base {
            if let Some(hash) = self.base_hash(index) {
                return Some(hash);
            }
        }
        self.uncle(layer, index)
    }

    /// The row of places, as the first and their count, that holds all claims of a layer: what lies
    /// under the node that covers the base range, and from that node's layer up the node over the
    /// range beside its sibling.
    pub(crate) fn row(&self, layer: u32) -> (u64, u64)
        requires from_base { self.now.base ≤ layer }
        requires index { self.now.index < 2 ^ 32 }
        requires base { self.now.base ≤ 32 }
        requires span { self.now.span ≤ 32 }
        requires layer { layer ≤ 32 }
        ensures first { result.0 ≡ row_first self.now layer }
        ensures count { result.1 ≡ 2 ^ row_height self.now layer }
    {
        let height = 1 + (self.base + self.span).saturating_sub(layer + 1);
        let node = self.index >> (layer - self.base);
        ((node >> height) << height, 1 << height)
    }

    /// The hashes of a row of the base range.
    pub(crate) fn base_row(&self, row: &HashRow) -> RowHashes
        requires index { self.now.index < 2 ^ 32 }
        requires base { self.now.base ≤ 32 }
        requires span { self.now.span ≤ 32 }
        requires few { row.now.depth ≤ 3 }
        requires node { row.now.node < 2 ^ 32 }
        requires layer { row.now.layer ≡ self.now.base }
        requires given { (j : ℕ) → j < 2 ^ row.now.depth
            → IsKnown (given_by self.now) row.now.layer (place_in_row row.now j) }
        ensures { AreClaimedIn (given_by self.now) row.now result }
    {
        let first = row.node * row.count();
        let mut hashes = [[0; 32]; 8];
        'places: for j in 0..row.count() {
            hashes[j as usize] = self.given(row.layer, first + j).unwrap();
        }
        hashes
    }

    // The hash of a place of the base layer.
    fn base_hash(&self, index: u64) -> Option<Hash>
        requires span { self.now.span ≤ 32 }
        ensures { result ≡ base_hash (range_of self.now) (hashes_of self.now) self.now.base index }
    {
        if index < self.index || index - self.index >= 1u64 << self.span {
            return None;
        }
        let place = (index - self.index) as usize;
        Some(if place < self.hashes.len() {
            self.hashes[place]
        } else {
            self.pad
        })
    }

    // The hash of an uncle's place.
    fn uncle(&self, layer: u32, index: u64) -> Option<Hash>
        requires index { self.now.index < 2 ^ 32 }
        requires base { self.now.base ≤ 32 }
        requires span { self.now.span ≤ 32 }
        requires layer { layer ≤ 32 }
        ensures { result ≡ uncle_hash (range_of self.now) (hashes_of self.now) layer index }
    {
        let cover = self.base + self.span;
        if layer < cover {
            return None;
        }
        if index != sibling(self.index >> (layer - self.base)) {
            return None;
        }
        let place = (1usize << self.span) + (layer - cover) as usize;
        if place < self.hashes.len() {
            Some(self.hashes[place])
        } else {
            None
        }
    }
}

/// The other child of a place's parent.
pub(crate) fn sibling(index: u64) -> u64
    requires { index < 2 ^ 63 }
    ensures { result ≡ sibling index }
{
    if index % 2 == 0 { index + 1 } else { index - 1 }
}
