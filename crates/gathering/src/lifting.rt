//! The node of the piece layer over a piece that is shorter than the others may be.
ghost use Rattle.std.specs.Prelude.{◌≡◌, ℕ, ◌^◌, ◌<◌, ◌≤◌, List, length};
ghost use Rattle.hashtree.specs.Pieces.{piece_node};
ghost use Rattle.hashtree.specs.Tree.{block_count, height, root_of};

use hashtree::{Hash, Shape, parent, zero};

/// The node of this layer over a piece of this many bytes that has this root: its tree stands at
/// the left, and zero hashes at its right. Conditions: it has a byte, a file may have as many, and
/// the layer is at least the tree's height, and at most 32.
pub(crate) fn lifted(root: Hash, size: u64, layer: u32) -> Hash
    requires some { 0 < size }
    requires fits { size ≤ 2 ^ 46 }
    requires above { height (block_count size) ≤ layer }
    requires low { layer ≤ 32 }
    ensures { (piece : List ℕ) → length piece ≡ size → root ≡ root_of piece
        → result ≡ piece_node layer piece }
{
    let mut node = root;
    let height = Shape::of(size).unwrap().height();
    'layers: for below in height..layer {
        node = parent(&node, &zero(below));
    }
    node
}
