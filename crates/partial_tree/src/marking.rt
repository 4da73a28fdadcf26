//! Marking the blocks of a tree.

ghost use Rattle.std.specs.Prelude.{◌≡◌, ◌+◌, ◌^◌, ◌<◌, ◌↔◌, IfOk, IfErr, IfSome, IsTrue, Some};
ghost use Rattle.std.specs.Bool.{OnTrue, OnFalse};
ghost use Rattle.sha2.specs.Sha256.{sha256};
ghost use Rattle.hashtree.specs.Tree.{block_count};
ghost use Rattle.node_maps.specs.Known.{look};
ghost use Rattle.node_maps.specs.Runs.{AreKnown};
ghost use Rattle.node_maps.specs.Places.{IsKnown};
ghost use Rattle.partial_tree.specs.Kept.{IsGoodTree, TreeMarks, TreeRefusesBlock};
ghost use Rattle.partial_tree.specs.LeafRows.{TreeMarksRun, tree_with_leaf_marked};

use crate::refusal::BlockRefusal;
use crate::tree::Tree;
use hashtree::{Hash, leaf};
use node_maps::NodeMap;

impl<N: NodeMap> Tree<N> {
    /// Marks a block whose digest is its known leaf. A refusal leaves the tree unchanged.
    /// Conditions: the tree is good, and the file has more than `block` blocks.
    pub fn take_block(&mut self, block: u64, bytes: &[u8]) -> Result<(), BlockRefusal>
        requires good { IsGoodTree self.old }
        requires inside { block < block_count self.old.length }
        ensures taken { IfOk result (λ _. TreeMarks self.old block bytes.now self.new) }
        ensures refused { IfErr result (λ r. TreeRefusesBlock self.old block bytes.now r
            × (self.new ≡ self.old)) }
    {
        self.take_hashed(block, bytes, None)
    }

    /// As [`Tree::take_block`], but the digest of the bytes may be given, and is not made again
    /// then. Conditions: those of that call, and a digest that is given is the SHA-256 digest of
    /// the bytes.
    pub fn take_hashed(
        &mut self,
        block: u64,
        bytes: &[u8],
        digest: Option<Hash>,
    ) -> Result<(), BlockRefusal>
        requires good { IsGoodTree self.old }
        requires inside { block < block_count self.old.length }
        requires digest { IfSome digest (λ d. d ≡ sha256 bytes.now) }
        ensures taken { IfOk result (λ _. TreeMarks self.old block bytes.now self.new) }
        ensures refused { IfErr result (λ r. TreeRefusesBlock self.old block bytes.now r
            × (self.new ≡ self.old)) }
    {
        if bytes.len() as u64 != self.nodes.shape().block_len(block) {
            return Err(BlockRefusal::BadSize);
        }
        match self.nodes.map().get(0, block) {
            None => return Err(BlockRefusal::Unproved),
            Some(known) => {
                if leaf_of(bytes, digest) != known {
                    return Err(BlockRefusal::BadBlock);
                }
            }
        }
        self.marked += self.nodes.mark(block);
        Ok(())
    }

    /// Marks a leaf, and returns true, if this digest is known there: that of a block which came.
    /// Else nothing changes. Takes no memory. Condition: the tree is good.
    pub fn mark_leaf(&mut self, block: u64, digest: &Hash) -> bool
        requires good { IsGoodTree self.old }
        ensures marked { OnTrue result
            (self.new ≡ tree_with_leaf_marked self.old block) }
        ensures known { IsTrue result ↔ (look self.old.state.known 0 block ≡ Some digest.now) }
        ensures stays { OnFalse result (self.new ≡ self.old) }
        ensures good { IsGoodTree self.new }
    {
        match self.hash(0, block) {
            Some(known) if known == *digest => {
                self.mark_known(block);
                true
            }
            _ => false,
        }
    }

    // Marks the leaves of `count` blocks, from one on. Conditions: the tree is good, these leaves
    // are known, and `first + count` is below 2^64.
    pub(crate) fn mark_leaves(&mut self, first: u64, count: u64)
        requires good { IsGoodTree self.old }
        requires range { first + count < 2 ^ 64 }
        requires known { AreKnown (look self.old.state.known 0) first count }
        ensures marked { TreeMarksRun self.old first count self.new }
        ensures good { IsGoodTree self.new }
    {
        'leaves: for j in 0..count {
            self.mark_known(first + j);
        }
    }

    // Marks one known leaf.
    fn mark_known(&mut self, block: u64)
        requires good { IsGoodTree self.old }
        requires known { IsKnown (look self.old.state.known) 0 block }
        ensures marked { self.new ≡ tree_with_leaf_marked self.old block }
        ensures good { IsGoodTree self.new }
    {
        self.marked += self.nodes.mark(block);
    }

    /// Whether the leaves of `count` blocks are known, from one on. Condition: `from + count` is
    /// below 2^64.
    pub fn knows_leaves(&self, from: u64, count: u64) -> bool
        requires { from + count < 2 ^ 64 }
        ensures { IsTrue result ↔ AreKnown (look self.now.state.known 0) from count }
    {
        self.nodes.map().knows(0, from, count)
    }
}

// The leaf of a block: the given digest, or it is made.
fn leaf_of(bytes: &[u8], digest: Option<Hash>) -> Hash
    requires { IfSome digest (λ d. d ≡ sha256 bytes.now) }
    ensures { result ≡ sha256 bytes.now }
{
    match digest {
        Some(digest) => digest,
        None => leaf(bytes),
    }
}
