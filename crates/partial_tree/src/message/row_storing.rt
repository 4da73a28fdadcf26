//! Storing the leaves under one node, and with the last block's leaf the pads beside the file's
//! end.

ghost use Rattle.std.specs.Prelude.{◌≡◌, ◌+◌, ◌≤◌, OnOk, IfOk, IfErr};
ghost use Rattle.node_maps.specs.Places.{tree_height, IsTreePlace};
ghost use Rattle.node_maps.specs.Known.{look};
ghost use Rattle.node_maps.specs.Nodes.{KeepsMarks};
ghost use Rattle.node_maps.specs.Room.{HasRoomFor};
ghost use Rattle.partial_tree.specs.Claims.{joined, IsAgreed};
ghost use Rattle.partial_tree.specs.EndPads.{end_pads};
ghost use Rattle.partial_tree.specs.Joins.{Joins};
ghost use Rattle.partial_tree.specs.Evidence.{claimed_by, LeadsTo, IsInside, EndFault};
ghost use Rattle.partial_tree.specs.LeafRows.{row_pads};

use crate::message::comparing::find_new;
use crate::message::end_pads::{knows_end_pads, put_end_pads, reserve_end_pads};
use crate::message::evidence::Evidence;
use crate::message::storing::{put_found, reserve_claimed, store};
use crate::refusal::HashRefusal;
use hashtree::{NoMemory, Shape};
use node_maps::NodeMap;
use std::alloc::Global;

/// As [`store`], of leaves, and of the pads beside the file's end if the leaves reach it.
/// Condition: these pads differ nowhere from what is known.
pub(crate) fn store_row<N: NodeMap>(
    alloc: Global,
    map: &mut N,
    evidence: &Evidence,
    layer: u32,
    index: u64,
    shape: Shape,
) -> Result<u64, HashRefusal>
    requires low { tree_height (N.seen map.old).length ≤ 32 }
    requires inside { IsInside evidence.now }
    requires place { IsTreePlace (tree_height (N.seen map.old).length) layer index }
    requires leads { LeadsTo evidence.now layer index }
    requires shape { (N.seen map.old).length ≡ shape }
    requires agreed { IsAgreed (look (N.seen map.old).known) (end_pads shape) }
    requires trimmed { N.held map.old ≡ N.needed (N.seen map.old).known }
    ensures stays { KeepsMarks (N.seen map.old) (N.seen map.new) }
    ensures trimmed { N.held map.new ≡ N.needed (N.seen map.new).known }
    ensures stored { IfOk result (λ c. Joins (joined (claimed_by evidence.now)
        (row_pads shape evidence.now.index evidence.now.span)) (N.seen map.old).known
        (N.seen map.new).known c) }
    ensures refused { IfErr result (λ r. EndFault (look (N.seen map.old).known)
        (claimed_by evidence.now) (row_pads shape evidence.now.index evidence.now.span) r
        × (N.seen map.new ≡ N.seen map.old)) }
{
    if evidence.index + (1 << evidence.span) < shape.blocks() {
        store(alloc, map, evidence, layer, index)
    } else {
        store_to_end(alloc, map, evidence, layer, index, shape)
    }
}

// As `store`, of the pads beside the file's end too. Room for all is made before any of it is
// written.
fn store_to_end<N: NodeMap>(
    alloc: Global,
    map: &mut N,
    evidence: &Evidence,
    layer: u32,
    index: u64,
    shape: Shape,
) -> Result<u64, HashRefusal>
    requires low { tree_height (N.seen map.old).length ≤ 32 }
    requires inside { IsInside evidence.now }
    requires place { IsTreePlace (tree_height (N.seen map.old).length) layer index }
    requires leads { LeadsTo evidence.now layer index }
    requires shape { (N.seen map.old).length ≡ shape }
    requires agreed { IsAgreed (look (N.seen map.old).known) (end_pads shape) }
    requires trimmed { N.held map.old ≡ N.needed (N.seen map.old).known }
    ensures stays { KeepsMarks (N.seen map.old) (N.seen map.new) }
    ensures trimmed { N.held map.new ≡ N.needed (N.seen map.new).known }
    ensures stored { IfOk result (λ c. Joins (joined (claimed_by evidence.now) (end_pads shape))
        (N.seen map.old).known (N.seen map.new).known c) }
    ensures refused { IfErr result (λ r. EndFault (look (N.seen map.old).known)
        (claimed_by evidence.now) (end_pads shape) r
        × (N.seen map.new ≡ N.seen map.old)) }
{
    let Some(found) = find_new(alloc, map, evidence, layer) else {
        return Err(HashRefusal::Mismatch);
    };
    let padded = knows_end_pads(map, shape);
    if found.is_empty() && padded {
        return Ok(0);
    }
    if reserve_to_end(map, evidence, layer, index, shape).is_err() {
        map.trim();
        return Err(HashRefusal::NoMemory);
    }
    let gained = put_found(map, evidence, &found, layer);
    let pads = put_end_pads(map, shape);
    map.trim();
    Ok(gained + pads)
}

// Makes room for all that the evidence claims, which leads to the place, and for the pads beside
// the file's end.
fn reserve_to_end<N: NodeMap>(
    map: &mut N,
    evidence: &Evidence,
    layer: u32,
    index: u64,
    shape: Shape,
) -> Result<(), NoMemory>
    requires low { tree_height (N.seen map.old).length ≤ 32 }
    requires inside { IsInside evidence.now }
    requires place { IsTreePlace (tree_height (N.seen map.old).length) layer index }
    requires leads { LeadsTo evidence.now layer index }
    requires shape { (N.seen map.old).length ≡ shape }
    ensures seen { N.seen map.new ≡ N.seen map.old }
    ensures room { OnOk result (HasRoomFor (claimed_by evidence.now) (N.has_room map.new)) }
    ensures pads { OnOk result (HasRoomFor (end_pads shape) (N.has_room map.new)) }
{
    reserve_claimed(map, evidence, layer, index)?;
    reserve_end_pads(map, shape)
}
