//! Taking the blocks under one node, as one run of bytes.

ghost use Rattle.std.specs.Vec.{vec_capacity};
ghost use Rattle.std.specs.Prelude.{◌≡◌, ◌≢◌, ℕ, ◌+◌, ◌*◌, ◌/◌, ◌^◌, ◌<◌, ◌≤◌, IfOk, IfErr, IfSome, IfNone, IsTrue, ◌↔◌, Some, length};
ghost use Rattle.std.specs.Bool.{OnTrue, OnFalse};
ghost use Rattle.sha2.specs.Sha256.{sha256};
ghost use Rattle.hashtree.specs.Tree.{block, block_count};
ghost use Rattle.node_maps.specs.Known.{look};
ghost use Rattle.node_maps.specs.Places.{IsKnown};
ghost use Rattle.node_maps.specs.Runs.{AreKnown};
ghost use Rattle.partial_tree.specs.Kept.{IsGoodTree};
ghost use Rattle.partial_tree.specs.Claims.{HasNew};
ghost use Rattle.partial_tree.specs.LeafRows.{AreRowPadsKnown, row_pads};
ghost use Rattle.partial_tree.specs.LeafPieces.{IsPieceRow, TreeTakesPiece, TreeRefusesPiece, leaves_in};

use crate::block_digests::BlockDigests;
use crate::message::end_pads::knows_end_pads;
use crate::refusal::PieceRefusal;
use crate::tree::Tree;
use hashtree::{BLOCK_LENGTH, Hash, NoMemory};
use node_maps::NodeMap;
use std::alloc::Global;

impl<N: NodeMap> Tree<N> {
    /// Takes the bytes of the blocks under the node `first >> span` of layer `span`: a piece. Its
    /// blocks are hashed eight at a time, their leaves are joined to what is known, and marked;
    /// with the last block's leaf come the pads beside the file's end, as [`Tree::take_leaves`]
    /// says. A refusal leaves the tree unchanged. Memory is taken only if a place under the node or
    /// such a pad is new: first for the leaves, all at once, before a byte is hashed. Conditions:
    /// the tree is good, and the bytes are as many as stand under the node, which is one of the
    /// tree and has a block under it.
    pub fn take_piece(&mut self, first: u64, span: u32, bytes: &[u8]) -> Result<(), PieceRefusal>
        requires good { IsGoodTree self.old }
        requires row { IsPieceRow self.old.length first span (length bytes.now) }
        ensures taken { IfOk result (λ _. TreeTakesPiece self.old first span bytes.now self.new) }
        ensures refused { IfErr result (λ r. TreeRefusesPiece self.old first span bytes.now r
            × (self.new ≡ self.old)) }
        ensures good { IsGoodTree self.new }
    {
        if self.hash(span, first >> span).is_none() {
            return Err(PieceRefusal::Unproved);
        }
        if self.knows_leaves(first, 1 << span) && self.has_row_pads(first, span) {
            return self.take_known(first, span, bytes);
        }
        let Ok(leaves) = leaves_of(self.alloc, bytes) else {
            return Err(PieceRefusal::NoMemory);
        };
        match self.take_leaves(first, span, &leaves) {
            Ok(_) => {
                self.mark_leaves(first, leaves.len() as u64);
                Ok(())
            }
            Err(refusal) => Err(refusal),
        }
    }

    // Whether the pads are known that leaves bring with them.
    fn has_row_pads(&self, first: u64, span: u32) -> bool
        requires range { first + 2 ^ span < 2 ^ 64 }
        requires span { span ≤ 32 }
        ensures known { OnTrue result
            (AreRowPadsKnown self.now.length (look self.now.state.known) first span) }
        ensures new { OnFalse result
            (HasNew (look self.now.state.known) (row_pads self.now.length first span)) }
    {
        let shape = self.shape();
        if first + (1 << span) < shape.blocks() {
            return true;
        }
        knows_end_pads(self.nodes.map(), shape)
    }

    // As `take_piece`, where all leaves under the node are known, and the pads that they bring:
    // nothing is new, and no memory is taken.
    fn take_known(&mut self, first: u64, span: u32, bytes: &[u8]) -> Result<(), PieceRefusal>
        requires good { IsGoodTree self.old }
        requires row { IsPieceRow self.old.length first span (length bytes.now) }
        requires top { IsKnown (look self.old.state.known) span (first / 2 ^ span) }
        requires known { AreKnown (look self.old.state.known 0) first (2 ^ span) }
        requires pads { AreRowPadsKnown self.old.length (look self.old.state.known) first span }
        ensures taken { IfOk result (λ _. TreeTakesPiece self.old first span bytes.now self.new) }
        ensures refused { IfErr result (λ r. TreeRefusesPiece self.old first span bytes.now r
            × (self.new ≡ self.old)) }
        ensures good { IsGoodTree self.new }
    {
        if let Some(_) = first_false(self.nodes.map(), first, bytes) {
            return Err(PieceRefusal::BadPiece);
        }
        self.mark_leaves(first, blocks_in(bytes));
        Ok(())
    }
}

// How many blocks stand in these bytes.
fn blocks_in(bytes: &[u8]) -> u64
    ensures { result ≡ block_count (length bytes.now) }
{
    (bytes.len() as u64).div_ceil(BLOCK_LENGTH)
}

// The first block of these bytes whose digest is not the known leaf, from block `first` of the tree
// on.
fn first_false<N: NodeMap>(nodes: &N, first: u64, bytes: &[u8]) -> Option<u64>
    requires { first + block_count (length bytes.now) ≤ 2 ^ 32 }
    ensures none { IfNone result ((j : ℕ) → j < block_count (length bytes.now)
        → look (N.seen nodes.now).known 0 (first + j) ≡ Some (sha256 (block bytes.now j))) }
    ensures some { IfSome result (λ j. (j < block_count (length bytes.now))
        × (look (N.seen nodes.now).known 0 (first + j) ≢ Some (sha256 (block bytes.now j)))) }
{
    let mut digests = BlockDigests::new();
    'numbers: for j in 0..blocks_in(bytes) {
        let digest = digests.digest(bytes, j);
        if !has_leaf(nodes, first + j, &digest) {
            return Some(j);
        }
    }
    None
}

// Whether this digest is the known leaf of a block.
fn has_leaf<N: NodeMap>(nodes: &N, block: u64, digest: &Hash) -> bool
    ensures { IsTrue result ↔ (look (N.seen nodes.now).known 0 block ≡ Some digest.now) }
{
    match nodes.get(0, block) {
        None => false,
        Some(known) => known == *digest,
    }
}

// The leaves of the blocks that stand in these bytes, in a list of just their size. Fails only if
// memory was refused.
fn leaves_of(alloc: Global, bytes: &[u8]) -> Result<Vec<Hash>, NoMemory>
    requires { length bytes.now ≤ 2 ^ 46 }
    ensures leaves { IfOk result (λ leaves. leaves.items ≡ leaves_in bytes.now) }
    ensures room { IfOk result (λ leaves. vec_capacity leaves ≡ block_count (length bytes.now)) }
{
    let count = blocks_in(bytes);
    let mut leaves = Vec::with_capacity(alloc, count as usize)?;
    let mut digests = BlockDigests::new();
    'numbers: for number in 0..count {
        leaves.push_reserved(digests.digest(bytes, number));
    }
    Ok(leaves)
}
