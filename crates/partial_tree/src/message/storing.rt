//! Storing what hashes claim: all of it is compared first, then room is made, and only then is it
//! written.

ghost use Rattle.std.specs.Prelude.{◌≡◌, ◌⊎◌, ℕ, ◌+◌, ◌^◌, ◌<◌, ◌≤◌, OnOk, OnErr, IfOk, IfErr};
ghost use Rattle.node_maps.specs.Places.{tree_height, IsTreePlace};
ghost use Rattle.node_maps.specs.Known.{look};
ghost use Rattle.node_maps.specs.Nodes.{KeepsMarks};
ghost use Rattle.node_maps.specs.Room.{HasRoomFor, KeepsRoom};
ghost use Rattle.partial_tree.specs.Claims.{IsAgreed};
ghost use Rattle.partial_tree.specs.Joins.{Joins};
ghost use Rattle.partial_tree.specs.Evidence.{claimed_by, claimed_pages, LeadsTo, LeadsUp, IsInside, FindsClaims, StoreFault};

use crate::message::comparing::find_new;
use crate::message::evidence::Evidence;
use crate::message::found::NewClaims;
use crate::message::writing::{put_new, write_claimed};
use crate::refusal::HashRefusal;
use hashtree::NoMemory;
use node_maps::NodeMap;
use std::alloc::Global;

/// Stores what the evidence claims, which leads to the place, and returns how many places are
/// newly known. What is new is listed while it is compared, up to what the longest message claims;
/// more is computed once more to be written. Room that was made and not used is given back.
pub(crate) fn store<N: NodeMap>(
    alloc: Global,
    map: &mut N,
    evidence: &Evidence,
    layer: u32,
    index: u64,
) -> Result<u64, HashRefusal>
    requires low { tree_height (N.seen map.old).length ≤ 32 }
    requires inside { IsInside evidence.now }
    requires place { IsTreePlace (tree_height (N.seen map.old).length) layer index }
    requires leads { LeadsTo evidence.now layer index }
    requires trimmed { N.held map.old ≡ N.needed (N.seen map.old).known }
    ensures stays { KeepsMarks (N.seen map.old) (N.seen map.new) }
    ensures trimmed { N.held map.new ≡ N.needed (N.seen map.new).known }
    ensures few { OnOk result (N.held map.new ≤ N.held map.old + claimed_pages evidence.now layer) }
    ensures stored { IfOk result (λ c. Joins (claimed_by evidence.now) (N.seen map.old).known
        (N.seen map.new).known c) }
    ensures refused { IfErr result (λ r. StoreFault (look (N.seen map.old).known)
        (claimed_by evidence.now) r
        × (N.seen map.new ≡ N.seen map.old)) }
{
    let Some(found) = find_new(alloc, map, evidence, layer) else {
        return Err(HashRefusal::Mismatch);
    };
    if found.is_empty() {
        return Ok(0);
    }
    if reserve_claimed(map, evidence, layer, index).is_err() {
        map.trim();
        return Err(HashRefusal::NoMemory);
    }
    let gained = put_found(map, evidence, &found, layer);
    map.trim();
    Ok(gained)
}

/// Stores what the evidence claims, which leads to the place and differs nowhere from what is
/// known, and returns how many places are newly known. Each digest is computed once, and nothing is
/// listed. Room that was made and not used is given back.
pub(crate) fn store_agreed<N: NodeMap>(
    map: &mut N,
    evidence: &Evidence,
    layer: u32,
    index: u64,
) -> Result<u64, NoMemory>
    requires low { tree_height (N.seen map.old).length ≤ 32 }
    requires inside { IsInside evidence.now }
    requires place { IsTreePlace (tree_height (N.seen map.old).length) layer index }
    requires leads { LeadsTo evidence.now layer index }
    requires agreed { IsAgreed (look (N.seen map.old).known) (claimed_by evidence.now) }
    requires trimmed { N.held map.old ≡ N.needed (N.seen map.old).known }
    ensures stays { KeepsMarks (N.seen map.old) (N.seen map.new) }
    ensures trimmed { N.held map.new ≡ N.needed (N.seen map.new).known }
    ensures stored { IfOk result (λ c. Joins (claimed_by evidence.now) (N.seen map.old).known
        (N.seen map.new).known c) }
    ensures refused { OnErr result (N.seen map.new ≡ N.seen map.old) }
{
    if let Err(refused) = reserve_claimed(map, evidence, layer, index) {
        map.trim();
        return Err(refused);
    }
    let gained = write_claimed(map, evidence, layer);
    map.trim();
    Ok(gained)
}

/// Writes what was found new, or all that the evidence claims if the list is incomplete, and
/// returns how many places are newly known.
pub(crate) fn put_found<N: NodeMap>(
    map: &mut N,
    evidence: &Evidence,
    found: &NewClaims,
    layer: u32,
) -> u64
    requires leads { LeadsUp evidence.now layer }
    requires room { HasRoomFor (claimed_by evidence.now) (N.has_room map.old) }
    requires found { FindsClaims (look (N.seen map.old).known) (claimed_by evidence.now) found.now }
    ensures stays { KeepsMarks (N.seen map.old) (N.seen map.new) }
    ensures held { N.held map.new ≡ N.held map.old }
    ensures keeps { KeepsRoom (N.has_room map.old) (N.has_room map.new) }
    ensures stored { Joins (claimed_by evidence.now) (N.seen map.old).known (N.seen map.new).known
        result }
    ensures few { result < 2 ^ 63 }
{
    if found.incomplete {
        return write_claimed(map, evidence, layer);
    }
    put_new(map, &found.claims)
}

/// Makes room for all that the evidence claims, which leads to the place: for each layer in one go,
/// and on no page that has no place of these rows.
pub(crate) fn reserve_claimed<N: NodeMap>(
    map: &mut N,
    evidence: &Evidence,
    layer: u32,
    index: u64,
) -> Result<(), NoMemory>
    requires low { tree_height (N.seen map.old).length ≤ 32 }
    requires inside { IsInside evidence.now }
    requires place { IsTreePlace (tree_height (N.seen map.old).length) layer index }
    requires leads { LeadsTo evidence.now layer index }
    ensures seen { N.seen map.new ≡ N.seen map.old }
    ensures room { OnOk result (HasRoomFor (claimed_by evidence.now) (N.has_room map.new)) }
    ensures few { OnOk result (N.held map.new ≤ N.held map.old + claimed_pages evidence.now layer) }
{
    'rows: for below in evidence.base..layer {
        let (first, count) = evidence.row(below);
        map.reserve(below, first, count)?;
    }
    map.reserve(layer, index, 1)
}
