//! One tree of a torrent: what is known and marked of it.
//!
//! What is known is always *closed*, as `IsClosed` in `specs/Closed.antt` says it: the root is
//! known, and each other known place stands with its sibling and its parent, whose value is the
//! digest of the two joined. So each known node is tied to the root.
//!
//! ```text
//!   layer
//!     2            R              R      the root, known from the start
//!                /   \
//!     1        c       d          c, d   known together: R is the digest of c and d joined
//!             / \     . .
//!     0      a   b   .   .        a, b   known together, and nothing below d
//! ```

ghost use Rattle.std.specs.Prelude.{◌≡◌, ◌+◌, ◌<◌, ◌≤◌, ◌↔◌, IfOk, IfErr, OnOk, OnErr, IsTrue, length};
ghost use Rattle.std.specs.FinMap as finite;
ghost use Rattle.std.specs.FinSet as set;
ghost use Rattle.hashtree.specs.Tree.{block_count};
ghost use Rattle.partial_tree.specs.declared.refusal.HashRefusal.TheVariants.{Mismatch};
ghost use Rattle.partial_tree.specs.Gaps.{want_of};
ghost use Rattle.partial_tree.specs.MessagePages.{most_pages};
ghost use Rattle.node_maps.specs.Known.{look};
ghost use Rattle.partial_tree.specs.Claims.{HasNew};
ghost use Rattle.partial_tree.specs.Fill.{fill_claims, IsFillAccepted};
ghost use Rattle.partial_tree.specs.Kept.{info_of, root_only, IsGoodTree, TreeJoins, TreeTakesHashes, TreeRefusesHashes, TreeTakesLayer, TreeRefusesLayer, TreeCanAnswer, TreeAnswers};
ghost use Rattle.partial_tree.specs.LeafRows.{IsLeafRow, RowRefuses, TreeTakesRow};

use crate::answer::Answer;
use crate::answering::answer_hashes;
use crate::bytes::recall_hashes;
use crate::growing::GrownTree;
use crate::growing::adopting::{agree, carry_marks};
use crate::message::checks::check_range;
use crate::nodes::TreeNodes;
use crate::refusal::{HashRefusal, PieceRefusal};
use hashtree::{Hash, NoMemory, Shape};
use node_maps::NodeMap;
use std::alloc::Global;
use std::marker::Model;
use wire::Ask;

/// How many leaves are asked for at once, if the tree has as many.
pub(crate) const MOST_WANTED: u64 = 512;

/// A tree, by its root and the length of its files, with its known nodes and marked leaves. It is
/// *good* if what is known is closed and each marked leaf is known.
#[derive(Drop)]
pub struct Tree<N: NodeMap> {
    pub(crate) alloc: Global,
    root: Hash,
    pub(crate) nodes: TreeNodes<N>,
    known: u64,
    pub(crate) marked: u64,
}

impl<N: NodeMap> Model for Tree<N> {
    ghost use Rattle.std.specs.Prelude.{◌≡◌};
    ghost use Rattle.partial_tree.specs.Kept.{KeptTree, IsCounted, kept};
    ghost use Rattle.partial_tree.specs.Codes.{kept_tree_code};

    ghost Value = { KeptTree };

    ghost coded = { kept_tree_code };

    ghost view = { λ t. kept t.root t.nodes.length t.nodes.known t.nodes.marked };

    ghost invariant = { λ t. IsCounted t.known t.marked t.nodes };
}

impl<N: NodeMap> Tree<N> {
    /// A tree of which the root alone is known.
    pub fn new(alloc: Global, root: Hash, shape: Shape) -> Result<Tree<N>, NoMemory>
        ensures { IfOk result (λ t. t ≡ root_only root shape) }
    {
        let nodes = TreeNodes::with_root(alloc, root, shape)?;
        Ok(Tree {
            alloc,
            root,
            nodes,
            known: 1,
            marked: 0,
        })
    }

    /// How many places are known.
    pub fn known(&self) -> u64
        ensures { result ≡ finite.len self.now.state.known }
    {
        self.known
    }

    /// How many pages are held: as many as what is known takes, and no more than places are known.
    pub fn pages(&self) -> u64
        ensures needed { result ≡ N.needed self.now.state.known }
        ensures few { result ≤ finite.len self.now.state.known }
    {
        self.nodes.pages()
    }

    /// The shape of the tree's files.
    pub fn shape(&self) -> Shape
        ensures { result ≡ self.now.length }
    {
        self.nodes.shape()
    }

    /// The hash at a place, if it is known. Takes no memory.
    pub fn hash(&self, layer: u32, index: u64) -> Option<Hash>
        ensures { result ≡ look self.now.state.known layer index }
    {
        self.nodes.map().get(layer, index)
    }

    /// How many leaves are marked.
    pub fn marked(&self) -> u64
        ensures { result ≡ set.len self.now.state.marked }
    {
        self.marked
    }

    /// Whether the leaf of a block is marked. Takes no memory.
    pub fn is_marked(&self, block: u64) -> bool
        ensures { result ≡ set.contains self.now.state.marked block }
    {
        self.nodes.map().is_marked(block)
    }

    /// Takes a hashes message that names this tree's root. Returns how many places are newly known.
    /// A refusal leaves the tree unchanged; it is out of memory only if a place is new. At most 59
    /// pages are added. Condition: the tree is good.
    pub fn take(&mut self, ask: &Ask, hashes: &[Hash]) -> Result<u64, HashRefusal>
        requires { IsGoodTree self.old }
        ensures taken { IfOk result
            (λ c. TreeTakesHashes self.old ask.now hashes.now c self.new) }
        ensures few { OnOk result
            (N.needed self.new.state.known ≤ N.needed self.old.state.known + most_pages) }
        ensures refused { IfErr result (λ r. TreeRefusesHashes self.old ask.now hashes.now r
            × (self.new ≡ self.old)) }
    {
        recall_hashes(hashes);
        let gained = self.nodes.take(self.alloc, ask, hashes)?;
        self.known += gained;
        Ok(gained)
    }

    /// Takes a whole layer, given without the pads at its end. Returns how many places are newly
    /// known. A refusal leaves the tree unchanged; it is out of memory only if a place is new.
    /// Condition: the tree is good.
    pub fn fill(&mut self, layer: u32, hashes: &[Hash]) -> Result<u64, HashRefusal>
        requires { IsGoodTree self.old }
        ensures filled { IfOk result (λ c. TreeTakesLayer self.old layer hashes.now c self.new) }
        ensures refused { IfErr result (λ r. TreeRefusesLayer self.old layer hashes.now r
            × (self.new ≡ self.old)) }
    {
        recall_hashes(hashes);
        let gained = self.nodes.fill(self.alloc, layer, hashes)?;
        self.known += gained;
        Ok(gained)
    }

    /// Takes the leaves of the blocks under the node `first >> span` of layer `span`, whose hash is
    /// known: those of a piece, say. Returns how many places are newly known, the pads past the
    /// file's end among them. With the last block's leaf all pads beside the file's end become
    /// known: on each layer below the root those in one aligned range of 512 places with the node
    /// over the last block. A tree that has the other blocks' leaves too can then answer for each
    /// block. A refusal leaves the tree unchanged; it is out of memory only if a place is new.
    /// Conditions: the tree is good, and the hashes are as many as blocks stand under the node,
    /// which is one of the tree and has a block under it.
    pub fn take_leaves(
        &mut self,
        first: u64,
        span: u32,
        hashes: &[Hash],
    ) -> Result<u64, PieceRefusal>
        requires good { IsGoodTree self.old }
        requires row { IsLeafRow self.old.length first span (length hashes.now) }
        ensures taken { IfOk result (λ c. TreeTakesRow self.old first span hashes.now c self.new) }
        ensures refused { IfErr result (λ r.
            RowRefuses self.old.length (look self.old.state.known) first span hashes.now r
            × (self.new ≡ self.old)) }
        ensures good { IsGoodTree self.new }
    {
        recall_hashes(hashes);
        let gained = self.nodes.take_leaves(self.alloc, first, span, hashes)?;
        self.known += gained;
        Ok(gained)
    }

    /// Takes a whole layer that would be accepted. Returns how many places are newly known. Nothing
    /// has to be compared, and each digest is computed once. Fails only if memory was refused and a
    /// place is new; the tree is then unchanged. Conditions: the tree is good, the layer is one of
    /// its own, given without the pads at its end, and what follows from it differs nowhere from
    /// what is known.
    pub fn plant(&mut self, layer: u32, hashes: &[Hash]) -> Result<u64, NoMemory>
        requires good { IsGoodTree self.old }
        requires accepted { IsFillAccepted self.old.length (look self.old.state.known) layer
            hashes.now }
        ensures planted { IfOk result (λ c. TreeJoins
            (fill_claims self.old.length layer hashes.now) self.old c self.new) }
        ensures refused { OnErr result (self.new ≡ self.old) }
        ensures no_memory { OnErr result (HasNew (look self.old.state.known)
            (fill_claims self.old.length layer hashes.now)) }
    {
        recall_hashes(hashes);
        let gained = self.nodes.plant(layer, hashes)?;
        self.known += gained;
        Ok(gained)
    }

    /// Takes over a whole tree that grew from its leaves. Returns how many places are newly known.
    /// It does what [`Tree::fill`] with these leaves would do, but the hashes stay where they are.
    /// It takes no memory, and refuses only a tree that differs from what is known; this tree is
    /// then unchanged. Conditions: this tree is good, and both are of files of one length.
    pub fn adopt(&mut self, grown: GrownTree<N>) -> Result<u64, HashRefusal>
        requires good { IsGoodTree self.old }
        requires length { grown.length ≡ self.old.length }
        ensures adopted { IfOk result (λ c. TreeTakesLayer self.old 0 grown.leaves c self.new) }
        ensures refused { IfErr result (λ r. TreeRefusesLayer self.old 0 grown.leaves r
            × (self.new ≡ self.old)) }
        ensures only_mismatch { IfErr result (λ r. r ≡ Mismatch) }
        ensures good { IsGoodTree self.new }
    {
        let height = self.nodes.height();
        let mut nodes = grown.nodes;
        if !agree(self.nodes.map(), &nodes, height) {
            return Err(HashRefusal::Mismatch);
        }
        carry_marks(self.nodes.map(), &mut nodes, 1 << height);
        let places = (2u64 << height) - 1;
        let gained = places - self.known;
        self.nodes.replace(nodes);
        self.known = places;
        Ok(gained)
    }

    /// Whether the hashes that are asked for are known.
    pub fn can_answer(&self, ask: &Ask) -> bool
        ensures { IsTrue result ↔ TreeCanAnswer self.now ask.now }
    {
        match check_range(self.nodes.height(), ask) {
            Err(_) => false,
            Ok(_) => self
                .nodes
                .map()
                .knows(ask.base, u64::from(ask.index), u64::from(ask.length)),
        }
    }

    /// What it answers to a hash request: the hashes if they are known, else a reject. Fails only
    /// if memory for the hashes was refused.
    pub fn answer(&self, ask: &Ask) -> Result<Answer, NoMemory>
        ensures answer { IfOk result (TreeAnswers self.now ask.now) }
        ensures no_memory { OnErr result (TreeCanAnswer self.now ask.now) }
    {
        let height = self.nodes.height();
        let Ok(span) = check_range(height, ask) else {
            return Ok(Answer::Reject);
        };
        if !self.can_answer(ask) {
            return Ok(Answer::Reject);
        }
        let hashes = answer_hashes(self.alloc, self.nodes.map(), height, ask, span)?;
        Ok(Answer::Hashes(hashes))
    }

    /// What to ask for to learn the leaf of a block: the range of at most 512 leaves that holds it,
    /// with proof up to the root. `None` if the leaf is known. Condition: the file has more than
    /// `block` blocks.
    pub fn want(&self, block: u64) -> Option<Ask>
        requires { block < block_count self.now.length }
        ensures { result ≡ want_of (info_of self.now) (look self.now.state.known) block }
    {
        if self.nodes.map().get(0, block).is_some() {
            return None;
        }
        let blocks = self.nodes.shape().blocks();
        prove!(block < blocks);
        let height = self.nodes.height();
        let length = MOST_WANTED.min(1 << height);
        Some(Ask {
            root: self.root,
            base: 0,
            index: (block / length * length) as u32,
            length: length as u32,
            proof: height.saturating_sub(1),
        })
    }
}
