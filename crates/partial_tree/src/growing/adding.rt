//! The rows of a tree that grows: its leaves, the pads after them, and the parents above.

ghost use Rattle.std.specs.Prelude.{◌≡◌, ℕ, suc, ◌+◌, ◌-◌, ◌*◌, ◌^◌, ◌<◌, ◌≤◌, [], Some, None, OnOk, OnErr, slice_index_or};
ghost use Rattle.std.specs.FinMap as finite;
ghost use Rattle.hashtree.specs.Tree.{pad_leaf};
ghost use Rattle.node_maps.specs.Digest.{IsHash};
ghost use Rattle.node_maps.specs.Known.{look};
ghost use Rattle.node_maps.specs.Nodes.{KeepsMarks, with_node};
ghost use Rattle.node_maps.specs.Places.{tree_height, IsTreePlace};
ghost use Rattle.node_maps.specs.Runs.{AreKnown};
ghost use Rattle.partial_tree.specs.Grown.{AddsRow, HasRow, parents_of};

use crate::bytes::recall_hash;
use crate::message::row::{RowHashes, parents_of_rows};
use hashtree::{Hash, NoMemory, parent, zero};
use node_maps::NodeMap;

/// Sets the hash at a place that is not known.
pub(crate) fn add<N: NodeMap>(
    map: &mut N,
    layer: u32,
    index: u64,
    hash: Hash,
) -> Result<(), NoMemory>
    requires place { IsTreePlace (tree_height (N.seen map.old).length) layer index }
    requires absent { look (N.seen map.old).known layer index ≡ None }
    ensures added { OnOk result (N.seen map.new ≡ with_node (N.seen map.old) layer index hash) }
    ensures hash { IsHash hash }
    ensures one { OnOk result
        (finite.len (N.seen map.new).known ≡ finite.len (N.seen map.old).known + 1) }
    ensures few { N.held map.new ≤ N.held map.old + 1 }
    ensures refused { OnErr result (N.seen map.new ≡ N.seen map.old) }
    ensures unheld { OnErr result (N.held map.new ≡ N.held map.old) }
{
    recall_hash(&hash);
    map.reserve(layer, index, 1)?;
    map.put(layer, index, hash);
    Ok(())
}

/// Sets pad leaves, from one place to another.
pub(crate) fn add_pads<N: NodeMap>(map: &mut N, from: u64, to: u64) -> Result<(), NoMemory>
    requires range { from ≤ to }
    requires inside { to ≤ 2 ^ tree_height (N.seen map.old).length }
    requires absent { (i : ℕ) → from ≤ i → look (N.seen map.old).known 0 i ≡ None }
    ensures stays { KeepsMarks (N.seen map.old) (N.seen map.new) }
    ensures added { OnOk result
        (AddsRow (N.seen map.old).known 0 from to (λ _. Some pad_leaf) (N.seen map.new).known) }
    ensures no_memory { OnErr result (from < to) }
{
    let pad = zero(0);
    'places: for index in from..to {
        add(map, 0, index, pad)?;
    }
    Ok(())
}

/// Sets the parents of all nodes of a layer, of which there are twice `count`. Eight are computed
/// side by side, as long as eight are left.
pub(crate) fn add_parents<N: NodeMap>(map: &mut N, layer: u32, count: u64) -> Result<(), NoMemory>
    requires layer { layer < tree_height (N.seen map.old).length }
    requires low { tree_height (N.seen map.old).length ≤ 32 }
    requires inside { count ≤ 2 ^ (tree_height (N.seen map.old).length - suc layer) }
    requires known { AreKnown (look (N.seen map.old).known layer) 0 (2 * count) }
    requires absent { (i : ℕ) → look (N.seen map.old).known (layer + 1) i ≡ None }
    ensures stays { KeepsMarks (N.seen map.old) (N.seen map.new) }
    ensures added { OnOk result (AddsRow (N.seen map.old).known (layer + 1) 0 count
        (parents_of (N.seen map.old).known layer) (N.seen map.new).known) }
{
    let rows = count / 8;
    'rows: for row in 0..rows {
        let above = parents_above(map, layer, 8 * row);
        add_row(map, layer + 1, 8 * row, &above)?;
    }
    'rest: for index in 8 * rows..count {
        let left = map.get(layer, 2 * index).unwrap();
        let right = map.get(layer, 2 * index + 1).unwrap();
        add(map, layer + 1, index, parent(&left, &right))?;
    }
    Ok(())
}

// Sets the hashes of eight places, from one on, that are not known.
fn add_row<N: NodeMap>(
    map: &mut N,
    layer: u32,
    from: u64,
    hashes: &RowHashes,
) -> Result<(), NoMemory>
    requires low { tree_height (N.seen map.old).length ≤ 32 }
    requires layer { layer ≤ tree_height (N.seen map.old).length }
    requires inside { from + 8 ≤ 2 ^ (tree_height (N.seen map.old).length - layer) }
    requires absent { (i : ℕ) → from ≤ i → look (N.seen map.old).known layer i ≡ None }
    ensures stays { KeepsMarks (N.seen map.old) (N.seen map.new) }
    ensures added { OnOk result (AddsRow (N.seen map.old).known layer from (from + 8)
        (λ i. Some (slice_index_or hashes.now (i - from) [])) (N.seen map.new).known) }
{
    map.reserve(layer, from, 8)?;
    'places: for j in 0..8 {
        map.put(layer, from + j, hashes[j as usize]);
    }
    Ok(())
}

// The parents, from one on, of 16 known places of a layer: eight that are computed side by side.
fn parents_above<N: NodeMap>(map: &N, layer: u32, from: u64) -> RowHashes
    requires range { 2 * from + 16 < 2 ^ 64 }
    requires known { AreKnown (look (N.seen map.now).known layer) (2 * from) 16 }
    ensures { HasRow (parents_of (N.seen map.now).known layer) from result }
{
    let left = known_row(map, layer, 2 * from);
    let right = known_row(map, layer, 2 * from + 8);
    parents_of_rows(&left, &right)
}

// The hashes of eight known places of a layer, from one on.
fn known_row<N: NodeMap>(map: &N, layer: u32, from: u64) -> RowHashes
    requires range { from + 8 < 2 ^ 64 }
    requires known { AreKnown (look (N.seen map.now).known layer) from 8 }
    ensures { HasRow (look (N.seen map.now).known layer) from result }
{
    let mut hashes = [[0; 32]; 8];
    'places: for j in 0..8 {
        hashes[j as usize] = map.get(layer, from + j).unwrap();
    }
    hashes
}
