//! The leaves of a file's tree, from a source.
ghost use Rattle.std.specs.Prelude.{◌≡◌, ◌⊎◌, ℕ, ◌+◌, ◌^◌, ◌<◌, ◌≤◌, ◌++◌, [], List, false, length, IfOk, OnErr, OnSome};
ghost use Rattle.std.specs.Option.{option_to_list};
ghost use Rattle.benc.specs.Device.{CountsFault};
ghost use Rattle.folders.specs.TakeAll.{IsReadWithin};
ghost use Rattle.hashtree.specs.Tree.{block_count};
ghost use Rattle.seeding.specs.Leaves.{FindsWholeTree, HaveLeavesRefused, IsFedLeaves, IsFull, ReadsTree};

use benc::{DeviceFault, Source};
use folders::{Consumer, take_all};
use hashtree::{Hash, NoMemory, Parts, RootBuilder, Shape};
use node_maps::NodeMap;
use opening::TreeInfo;
use partial_tree::{GrowingTree, GrownTree};
use std::alloc::Global;

/// What takes a file's bytes for its leaves, which go where they will stay. Once memory was refused
/// it keeps no more leaves, and goes on with the root.
#[derive(Drop)]
pub(crate) struct Leaves<N: NodeMap> {
    builder: RootBuilder,
    tree: GrowingTree<N>,
    is_refused: bool,
}

impl<N: NodeMap> Consumer for Leaves<N> {
    ghost use Rattle.seeding.specs.Leaves.{HasRoomForBytes, Pushes};
    ghost use Rattle.seeding.specs.LeavesLaws.{pushed_none, pushed_both, pushed_room, pushed_less};

    ghost has_room = { HasRoomForBytes };

    ghost took = { Pushes };

    fn take(&mut self, part: &[u8]) {
        let mut parts = Parts::new(part);
        'parts: while !parts.is_empty() {
            let leaf = self.builder.take_part(&mut parts, 0);
            self.keep(leaf);
        }
    }

    ghost none = { pushed_none };

    ghost joins = { pushed_both };

    ghost room_left = { pushed_room };

    ghost room_for_less = { pushed_less };
}

impl<N: NodeMap> Leaves<N> {
    // Leaves of a file of this shape of which no byte is read.
    fn new(alloc: Global, shape: Shape) -> Leaves<N>
        ensures length { result.tree.length ≡ shape }
        ensures content { IsFedLeaves result [] }
        ensures works { result.is_refused ≡ false }
    {
        Leaves {
            builder: RootBuilder::new(),
            tree: GrowingTree::new(alloc, shape),
            is_refused: false,
        }
    }

    // Gives the tree its next leaf, if a block is complete and no memory was refused.
    fn keep(&mut self, leaf: Option<Hash>)
        requires room { OnSome leaf (HaveLeavesRefused self.old
            ⊎ (length self.old.tree.leaves < block_count self.old.tree.length)) }
        ensures builder { self.new.builder ≡ self.old.builder }
        ensures length { self.new.tree.length ≡ self.old.tree.length }
        ensures kept { HaveLeavesRefused self.new ⊎ ((HaveLeavesRefused self.old → ⊥)
            × (self.new.tree.leaves ≡ self.old.tree.leaves ++ option_to_list leaf)) }
    {
        if let Some(leaf) = leaf {
            self.is_refused = self.is_refused || self.tree.push(leaf).is_err();
        }
    }

    // The whole tree, if it has this root, in which case memory may be refused. Condition: as many
    // bytes as the file has were taken.
    fn finish(self, root: &Hash) -> Found<N>
        requires { (content : List ℕ) × IsFull self content }
        ensures { (content : List ℕ) → IsFull self content
            → FindsWholeTree self.tree.length root.now content result }
    {
        let (_, found, last) = self.builder.finish_layer(0);
        if found != *root {
            return Ok(None);
        }
        if self.is_refused {
            return Err(NoMemory);
        }
        let mut tree = self.tree;
        if let Some(leaf) = last {
            tree.push(leaf)?;
        }
        Ok(Some(tree.finish()?))
    }
}

/// What is found of a file: the whole tree over its leaves if it fits its own, and else `None`; or
/// that memory was refused for the leaves of one that fits.
pub(crate) type Found<N> = Result<Option<GrownTree<N>>, NoMemory>;

/// Reads a source through the buffer to its end and no further, or to one byte past the length of
/// the tree's files, and finds its leaves. Memory for them is taken as they come; that it was
/// refused is answered only of a content that fits.
pub(crate) fn read_tree<N: NodeMap, F: Source>(
    alloc: Global,
    source: &mut F,
    tree: &TreeInfo<'_>,
    buffer: &mut [u8],
) -> Result<Found<N>, DeviceFault>
    requires some { 0 < length buffer.old }
    requires tree { (0 < tree.now.length) × (tree.now.length ≤ 2 ^ 46) }
    ensures read { IfOk result (ReadsTree tree.now.length tree.now.root (F.seen source.old)
        (F.seen source.new)) }
    ensures early { OnErr result
        (IsReadWithin tree.now.length (F.seen source.old) (F.seen source.new)) }
    ensures counts { CountsFault (F.seen source.old).faults (F.seen source.new).faults result }
{
    let shape = Shape::of(tree.length).unwrap();
    let mut leaves = Leaves::new(alloc, shape);
    if take_all(source, tree.length, buffer, &mut leaves)? != Some(tree.length) {
        return Ok(Ok(None));
    }
    Ok(leaves.finish(&tree.root))
}

/// The whole tree over these leaves, of files of this length. Condition: they are as many.
pub(crate) fn grow<N: NodeMap>(
    alloc: Global,
    size: u64,
    leaves: &[Hash],
) -> Result<GrownTree<N>, NoMemory>
    requires bounds { (0 < size) × (size ≤ 2 ^ 46) }
    requires all { length leaves.now ≡ block_count size }
    ensures length { IfOk result (λ t. t.length ≡ size) }
    ensures leaves { IfOk result (λ t. t.leaves ≡ leaves.now) }
{
    let shape = Shape::of(size).unwrap();
    let mut tree = GrowingTree::new(alloc, shape);
    'leaves: for leaf in leaves {
        tree.push(*leaf)?;
    }
    Ok(tree.finish()?)
}
