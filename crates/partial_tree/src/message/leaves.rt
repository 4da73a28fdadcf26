//! Taking the leaves under one node, given without the pads past the file's end.

ghost use Rattle.std.specs.Prelude.{◌≡◌, ℕ, IfOk, IfErr, length};
ghost use Rattle.node_maps.specs.Places.{tree_height, IsKnown, IsTreePlace};
ghost use Rattle.node_maps.specs.Known.{look};
ghost use Rattle.node_maps.specs.Nodes.{KeepsMarks};
ghost use Rattle.partial_tree.specs.Claims.{IsAgreed};
ghost use Rattle.partial_tree.specs.EndPads.{end_pads};
ghost use Rattle.partial_tree.specs.LeafRows.{IsLeafRow, RowRefuses, TakesRow, piece_refusal};

use crate::message::evidence::Evidence;
use crate::message::row_storing::store_row;
use crate::nodes::TreeNodes;
use crate::refusal::{HashRefusal, PieceRefusal};
use hashtree::{Hash, zero};
use node_maps::NodeMap;
use std::alloc::Global;

impl<N: NodeMap> TreeNodes<N> {
    /// Takes the leaves under the node `first >> span` of layer `span`, and returns how many places
    /// are newly known. With the last block's leaf come the pads beside the file's end. Conditions:
    /// they are as many as blocks stand there, and what is known lies in the tree and differs from
    /// no such pad.
    pub(crate) fn take_leaves(
        &mut self,
        alloc: Global,
        first: u64,
        span: u32,
        hashes: &[Hash],
    ) -> Result<u64, PieceRefusal>
        requires row { IsLeafRow self.old.length first span (length hashes.now) }
        requires in_tree { (l i : ℕ) → IsKnown (look self.old.known) l i
            → IsTreePlace (tree_height self.old.length) l i }
        requires pads { IsAgreed (look self.old.known) (end_pads self.old.length) }
        ensures stays { KeepsMarks self.old self.new }
        ensures taken { IfOk result (λ c. TakesRow self.old.length first span hashes.now
            self.old.known c self.new.known) }
        ensures refused { IfErr result (λ r.
            RowRefuses self.old.length (look self.old.known) first span hashes.now r
            × (self.new ≡ self.old)) }
    {
        let height = self.height();
        prove!(span <= height);
        let node = first >> span;
        if self.map.get(span, node).is_none() {
            return Err(PieceRefusal::Unproved);
        }
        let evidence = Evidence {
            base: 0,
            index: first,
            span,
            hashes,
            pad: zero(0),
        };
        let shape = self.shape;
        match store_row(alloc, &mut self.map, &evidence, span, node, shape) {
            Ok(gained) => Ok(gained),
            Err(refusal) => Err(of_piece(refusal)),
        }
    }
}

// A refusal to store leaves, as one of their piece.
fn of_piece(refusal: HashRefusal) -> PieceRefusal
    ensures { result ≡ piece_refusal refusal }
{
    match refusal {
        HashRefusal::NoMemory => PieceRefusal::NoMemory,
        _ => PieceRefusal::BadPiece,
    }
}
