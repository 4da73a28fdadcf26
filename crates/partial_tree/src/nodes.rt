//! The nodes of one tree, with the shape that fixes their places.

ghost use Rattle.std.specs.Prelude.{◌≡◌, ◌+◌, ◌<◌, ◌≤◌, IfOk};
ghost use Rattle.std.specs.FinSet as set;
ghost use Rattle.node_maps.specs.Known.{look};
ghost use Rattle.node_maps.specs.Nodes.{no_nodes, with_mark, with_node};
ghost use Rattle.node_maps.specs.Places.{IsKnown, tree_height};

use hashtree::{Hash, NoMemory, Shape};
use node_maps::NodeMap;
use std::alloc::Global;
use std::marker::Model;

/// What is known and marked of a tree of files of one length. It holds no page that this does not
/// need. Contracts see the length, the known nodes and the marks.
#[derive(Drop)]
pub(crate) struct TreeNodes<N: NodeMap> {
    pub(crate) shape: Shape,
    pub(crate) height: u32,
    pub(crate) map: N,
}

impl<N: NodeMap> Model for TreeNodes<N> {
    ghost use Rattle.std.specs.Prelude.{◌≡◌, ◌≤◌};
    ghost use Rattle.node_maps.specs.Nodes.{Nodes};
    ghost use Rattle.node_maps.specs.Places.{tree_height};
    ghost use Rattle.partial_tree.specs.Codes.{nodes_code};

    ghost Value = { Nodes };

    ghost coded = { nodes_code };

    ghost view = { λ t. N.seen t.map };

    ghost invariant = { λ t. ((N.seen t.map).length ≡ t.shape)
        × (t.height ≡ tree_height t.shape)
        × (t.height ≤ 32)
        × (N.held t.map ≡ N.needed (N.seen t.map).known) };
}

impl<N: NodeMap> TreeNodes<N> {
    /// Those of a tree of which the root alone is known. Fails only if memory was refused.
    pub(crate) fn with_root(
        alloc: Global,
        root: Hash,
        shape: Shape,
    ) -> Result<TreeNodes<N>, NoMemory>
        ensures root { IfOk result
            (λ t. t ≡ with_node (no_nodes shape) (tree_height shape) 0 root) }
        ensures low { tree_height shape ≤ 32 }
    {
        let height = shape.height();
        let mut map = N::empty(alloc, shape);
        map.reserve(height, 0, 1)?;
        map.put(height, 0, root);
        map.trim();
        Ok(TreeNodes { shape, height, map })
    }

    /// The shape of the tree's files.
    pub(crate) fn shape(&self) -> Shape
        ensures { result ≡ self.now.length }
    {
        self.shape
    }

    /// The height of the tree.
    pub(crate) fn height(&self) -> u32
        ensures value { result ≡ tree_height self.now.length }
        ensures low { result ≤ 32 }
    {
        self.height
    }

    /// The map that keeps them.
    pub(crate) fn map(&self) -> &N
        ensures { N.seen result.now ≡ self.now }
    {
        &self.map
    }

    /// How many pages are held: as many as what is known takes.
    pub(crate) fn pages(&self) -> u64
        ensures { result ≡ N.needed self.now.known }
    {
        self.map.pages()
    }

    /// Marks a known leaf, and returns how many more are marked.
    pub(crate) fn mark(&mut self, block: u64) -> u64
        requires { IsKnown (look self.old.known) 0 block }
        ensures marked { self.new ≡ with_mark self.old block }
        ensures one { result ≤ 1 }
        ensures count { set.len self.new.marked ≡ set.len self.old.marked + result }
    {
        mark_leaf(&mut self.map, block)
    }

    /// Takes over other nodes of a tree of this height. Condition: they are in a map of files of
    /// this length that holds no page too many.
    pub(crate) fn replace(&mut self, map: N)
        requires length { (N.seen map).length ≡ self.old.length }
        requires trimmed { N.held map ≡ N.needed (N.seen map).known }
        ensures { self.new ≡ N.seen map }
    {
        self.map = map;
    }
}

// Marks a known leaf, and returns how many more are marked.
fn mark_leaf<N: NodeMap>(map: &mut N, block: u64) -> u64
    requires { IsKnown (look (N.seen map.old).known) 0 block }
    ensures seen { N.seen map.new ≡ with_mark (N.seen map.old) block }
    ensures held { N.held map.new ≡ N.held map.old }
    ensures one { result ≤ 1 }
    ensures count { set.len (N.seen map.new).marked ≡ set.len (N.seen map.old).marked + result }
{
    let before = map.is_marked(block);
    map.mark(block);
    if before { 0 } else { 1 }
}
