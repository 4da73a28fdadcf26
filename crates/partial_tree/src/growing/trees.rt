//! A tree that grows from its leaves, before any of them is compared with what is known.
//!
//! The leaves are kept where they will stay: in a node map of their own, which a tree then takes
//! over. So no list of them stands beside it.

ghost use Rattle.std.specs.Prelude.{◌≡◌, ◌<◌, ◌≤◌, ◌++◌, [], ◌∷◌, IfOk, OnOk, OnErr, length};
ghost use Rattle.hashtree.specs.Tree.{block_count};

use crate::growing::adding::{add, add_pads, add_parents};
use hashtree::{Hash, NoMemory, Shape};
use node_maps::NodeMap;
use std::alloc::Global;
use std::marker::Model;

/// A tree of files of one length, and its leaves as they come. Contracts see the length and the
/// leaves.
#[derive(Drop)]
pub struct GrowingTree<N: NodeMap> {
    shape: Shape,
    nodes: N,
    count: u64,
}

impl<N: NodeMap> Model for GrowingTree<N> {
    ghost use Rattle.std.specs.Prelude.{◌≡◌, ◌≤◌};
    ghost use Rattle.std.specs.FinSet.{empty};
    ghost use Rattle.hashtree.specs.Tree.{block_count};
    ghost use Rattle.partial_tree.specs.Grown.{GrownTree, IsGrowing, first_leaves, grown};
    ghost use Rattle.partial_tree.specs.Codes.{grown_tree_code};

    ghost Value = { GrownTree };

    ghost coded = { grown_tree_code };

    ghost view = { λ t. grown t.shape (first_leaves (N.seen t.nodes).known t.count) };

    ghost invariant = { λ t. ((N.seen t.nodes).length ≡ t.shape)
        × (t.count ≤ block_count t.shape)
        × ((N.seen t.nodes).marked ≡ empty)
        × IsGrowing t.count (N.seen t.nodes).known
        × (N.held t.nodes ≤ t.count) };
}

impl<N: NodeMap> GrowingTree<N> {
    /// A tree that was given no leaf. It takes no memory.
    pub fn new(alloc: Global, shape: Shape) -> GrowingTree<N>
        ensures length { result.length ≡ shape }
        ensures leaves { result.leaves ≡ [] }
    {
        GrowingTree {
            shape,
            nodes: N::empty(alloc, shape),
            count: 0,
        }
    }

    /// Takes the next leaf. It fails only if memory was refused; the tree is then as it was.
    /// Condition: the file has more blocks than leaves were given.
    pub fn push(&mut self, leaf: Hash) -> Result<(), NoMemory>
        requires { length self.old.leaves < block_count self.old.length }
        ensures length { self.new.length ≡ self.old.length }
        ensures pushed { OnOk result (self.new.leaves ≡ self.old.leaves ++ leaf ∷ []) }
        ensures refused { OnErr result (self.new.leaves ≡ self.old.leaves) }
    {
        add(&mut self.nodes, 0, self.count, leaf)?;
        self.count += 1;
        Ok(())
    }

    /// How many pages are held: no more than leaves were given.
    pub fn pages(&self) -> u64
        ensures { result ≤ length self.now.leaves }
    {
        self.nodes.pages()
    }

    /// The whole tree over the leaves, with the pads past the file's end. It fails only if memory
    /// was refused; the tree of one block takes none. Condition: there is a leaf for each block.
    pub fn finish(self) -> Result<GrownTree<N>, NoMemory>
        requires { length self.leaves ≡ block_count self.length }
        ensures length { IfOk result (λ tree. tree.length ≡ self.length) }
        ensures leaves { IfOk result (λ tree. tree.leaves ≡ self.leaves) }
        ensures no_memory { OnErr result (1 < block_count self.length) }
    {
        let height = self.shape.height();
        let blocks = self.shape.blocks();
        let mut nodes = self.nodes;
        add_pads(&mut nodes, blocks, 1 << height)?;
        'layers: for layer in 0..height {
            add_parents(&mut nodes, layer, 1 << (height - layer - 1))?;
        }
        nodes.trim();
        Ok(GrownTree {
            shape: self.shape,
            nodes,
        })
    }
}

/// A whole tree over leaves that were given one after the other. Contracts see the length of its
/// files and the leaves.
#[derive(Drop)]
pub struct GrownTree<N: NodeMap> {
    shape: Shape,
    pub(crate) nodes: N,
}

impl<N: NodeMap> Model for GrownTree<N> {
    ghost use Rattle.std.specs.Prelude.{◌≡◌, suc, ◌+◌, ◌^◌};
    ghost use Rattle.std.specs.FinMap.{len};
    ghost use Rattle.std.specs.FinSet.{empty};
    ghost use Rattle.hashtree.specs.Tree.{block_count};
    ghost use Rattle.node_maps.specs.Places.{tree_height};
    ghost use Rattle.partial_tree.specs.Grown.{GrownTree as Grown, FollowsFromLeaves, grown, first_leaves};
    ghost use Rattle.partial_tree.specs.Codes.{grown_tree_code};

    ghost Value = { Grown };

    ghost coded = { grown_tree_code };

    ghost view = { λ t. grown t.shape (first_leaves (N.seen t.nodes).known (block_count t.shape)) };

    ghost invariant = { λ t. ((N.seen t.nodes).length ≡ t.shape)
        × ((N.seen t.nodes).marked ≡ empty)
        × (N.held t.nodes ≡ N.needed (N.seen t.nodes).known)
        × (len (N.seen t.nodes).known + 1 ≡ 2 ^ suc (tree_height t.shape))
        × FollowsFromLeaves t.shape (block_count t.shape) (N.seen t.nodes).known };
}
