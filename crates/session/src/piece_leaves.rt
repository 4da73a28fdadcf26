//! The pieces of a tree: how a session takes the leaves of one, and marks leaves that it knows.

ghost use Rattle.std.specs.Prelude.{◌≡◌, ◌<◌, ◌≤◌, ◌^◌, IfOk, IfErr, length, slice_get, Some};
ghost use Rattle.std.specs.Bool.{OnTrue, OnFalse};
ghost use Rattle.hashtree.specs.Tree.{block_count};
ghost use Rattle.node_maps.specs.Known.{look};
ghost use Rattle.partial_tree.specs.Kept.{TreeState};
ghost use Rattle.partial_tree.specs.TreeRoot.{TreeRoot};
ghost use Rattle.session.specs.Layouts.{roots};
ghost use Rattle.session.specs.Pieces.{HasPiece, AreLeavesTaken, AreLeavesRefused, AreLeavesKnown, HasEndPads, TakesTrueLeaves, IsLeafMarked, IsNoLeaf, piece_span};
ghost use Rattle.session.specs.Rounds.{HasNoMoreGaps};
ghost use Rattle.session.specs.SafeStep.{KeepsKnown};

use crate::session::SessionOf;
use crate::torrent_holder::HoldsTorrent;
use hashtree::{Hash, Shape};
use node_maps::NodeMap;
use partial_tree::{PieceRefusal, recall_hashes};

impl<T: HoldsTorrent, N: NodeMap> SessionOf<T, N> {
    /// The hash at a place of a tree, if it is known. Takes no memory. Condition: there are more
    /// than `tree` trees.
    pub fn hash_at(&self, tree: usize, layer: u32, index: u64) -> Option<Hash>
        requires { tree < length self.now.torrent.trees }
        ensures { (s : TreeState) × (slice_get self.now.trees tree ≡ Some s)
            × (result ≡ look s.known layer index) }
    {
        self.trees[tree].hash(layer, index)
    }

    /// How many blocks the files of a tree have. Condition: there are more than `tree` trees.
    pub fn blocks(&self, tree: usize) -> u64
        requires { tree < length self.now.torrent.trees }
        ensures value { (t : TreeRoot) × (slice_get (roots self.now) tree ≡ Some t)
            × (result ≡ block_count t.length) }
        ensures some { 0 < result }
        ensures bound { result ≤ 2 ^ 32 }
    {
        self.trees[tree].shape().blocks()
    }

    /// The layer of the nodes that cover the pieces of a tree: the piece layer, or the root if its
    /// files have no more than one piece. Condition: there are more than `tree` trees.
    pub fn piece_span(&self, tree: usize) -> u32
        requires { tree < length self.now.torrent.trees }
        ensures value { (t : TreeRoot) × (slice_get (roots self.now) tree ≡ Some t)
            × (result ≡ piece_span self.now.torrent.piece_length t.length) }
        ensures bound { result ≤ 32 }
    {
        let torrent = self.torrent.lend();
        torrent.recall_sound();
        let layer = Shape::of(torrent.piece_length()).unwrap().height();
        layer.min(self.trees[tree].shape().height())
    }

    /// Takes the leaves of a piece of a tree, from leaf `first` on: they lead to the node that
    /// covers the piece, which is known. Returns how many places are newly known, the pads past the
    /// file's end among them. Nothing is marked. Each of the leaves is known then. With those of
    /// the last piece the pads beside the file's end become known, so that a session which has the
    /// leaves of all pieces answers for each block of the file. What was known stays known, and no
    /// tree has more gaps. The leaves of a true piece are taken, unless memory is refused for them
    /// or two inputs with one digest are named. A refusal leaves the session unchanged; it is
    /// `Unproved`, `BadPiece`, or out of memory, and that only if a place is new. Conditions: there
    /// are more than `tree` trees, and the leaves are as many as the piece has.
    pub fn take_leaves(
        &mut self,
        tree: usize,
        first: u64,
        leaves: &[Hash],
    ) -> Result<u64, PieceRefusal>
        requires tree { tree < length self.old.torrent.trees }
        requires piece { HasPiece self.old tree first (length leaves.now) }
        ensures taken { IfOk result
            (λ c. AreLeavesTaken self.old tree first leaves.now c self.new) }
        ensures refused { IfErr result (λ r. AreLeavesRefused self.old tree first leaves.now r
            × (self.new ≡ self.old)) }
        ensures known { IfOk result (λ _. AreLeavesKnown self.new tree first leaves.now) }
        ensures end_pads { IfOk result (λ _. HasEndPads self.new tree first) }
        ensures keeps_known { KeepsKnown self.old self.new }
        ensures gaps { HasNoMoreGaps self.old self.new }
        ensures takes_true_leaves { TakesTrueLeaves self.old tree first leaves.now result }
    {
        self.recall_closed_trees();
        self.join_leaves(tree, first, leaves)
    }

    // Apart from `take_leaves`, so that what follows of closed trees is proved of one result.
    fn join_leaves(&mut self, tree: usize, first: u64, leaves: &[Hash]) -> Result<u64, PieceRefusal>
        requires tree { tree < length self.old.torrent.trees }
        requires piece { HasPiece self.old tree first (length leaves.now) }
        ensures taken { IfOk result
            (λ c. AreLeavesTaken self.old tree first leaves.now c self.new) }
        ensures refused { IfErr result (λ r. AreLeavesRefused self.old tree first leaves.now r
            × (self.new ≡ self.old)) }
    {
        recall_hashes(leaves);
        let span = self.piece_span(tree);
        self.trees[tree].take_leaves(first, span, leaves)
    }

    /// Marks a leaf of a tree, and returns true, if this digest is known there: that of a block
    /// which came. Else nothing changes. Takes no memory. Condition: there are more than `tree`
    /// trees.
    pub fn mark_leaf(&mut self, tree: usize, block: u64, digest: &Hash) -> bool
        requires { tree < length self.old.torrent.trees }
        ensures marked { OnTrue result (IsLeafMarked self.old tree block digest.now self.new) }
        ensures other { OnFalse result (IsNoLeaf self.old tree block digest.now) }
        ensures stays { OnFalse result (self.new ≡ self.old) }
        ensures keeps_known { KeepsKnown self.old self.new }
    {
        self.trees[tree].mark_leaf(block, digest)
    }
}
