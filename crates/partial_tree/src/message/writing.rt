//! What hashes claim, written at the places that are not known.
ghost use Rattle.std.specs.Prelude.{◌≡◌, ◌+◌, ◌≤◌, length};
ghost use Rattle.std.specs.List.{All};
ghost use Rattle.std.specs.FinMap as finite;
ghost use Rattle.node_maps.specs.Nodes.{KeepsMarks};
ghost use Rattle.node_maps.specs.Room.{HasRoomFor, KeepsRoom};
ghost use Rattle.partial_tree.specs.declared.message.found.Claim.{Claim as Claimed};
ghost use Rattle.partial_tree.specs.Evidence.{claimed_by, LeadsUp};
ghost use Rattle.partial_tree.specs.Joins.{with_new, insert_new};
ghost use Rattle.partial_tree.specs.Stores.{PutsOne, Stores};

use crate::message::evidence::Evidence;
use crate::message::folding::fold;
use crate::message::found::Claim;
use crate::message::visitor::Visitor;
use node_maps::NodeMap;

// Writes each claim into a map that is changed, unless its place is known, and counts the places
// that are new.
#[derive(Drop)]
struct Write<'a, N: NodeMap> {
    map: &'a mut N,
    gained: u64,
}

impl<'a, N: NodeMap> Visitor for Write<'a, N> {
    ghost admits = { λ v c. N.has_room v.map.now c.layer c.index };

    ghost visits = { λ v c w. (w.map.ghost_name ≡ v.map.ghost_name)
        × PutsOne N.seen N.held N.has_room c v.map.now v.gained w.map.now w.gained };

    ghost stops = { λ v c. ⊥ };

    fn visit(&mut self, claim: Claim) -> Option<()> {
        let gained = put_absent(self.map, &claim);
        self.gained = self.gained.saturating_add(gained);
        Some(())
    }

    ghost admits_after = { λ v w c d is has. is.1.keeps d.layer d.index has };

    ghost stops_before = { λ v w c d is never. never };
}

/// Writes all that the evidence claims, up to the layer of the place to which it leads, at places
/// that are not known, and returns how many are new.
pub(crate) fn write_claimed<N: NodeMap>(map: &mut N, evidence: &Evidence, layer: u32) -> u64
    requires leads { LeadsUp evidence.now layer }
    requires room { HasRoomFor (claimed_by evidence.now) (N.has_room map.old) }
    ensures { Stores N.seen N.held N.has_room (claimed_by evidence.now) map.old map.new result }
{
    let mut write = Write { map, gained: 0 };
    let _ = fold(&mut write, evidence, layer);
    write.gained
}

/// Sets the hashes of claims at places that are not known, and returns how many are new.
pub(crate) fn put_new<N: NodeMap>(map: &mut N, claims: &[Claim]) -> u64
    requires { All (λ (c : Claimed). N.has_room map.old c.layer c.index) claims.now }
    ensures stays { KeepsMarks (N.seen map.old) (N.seen map.new) }
    ensures held { N.held map.new ≡ N.held map.old }
    ensures keeps { KeepsRoom (N.has_room map.old) (N.has_room map.new) }
    ensures known { (N.seen map.new).known ≡ insert_new (N.seen map.old).known claims.now }
    ensures gained { finite.len (N.seen map.new).known
        ≡ finite.len (N.seen map.old).known + result }
    ensures few { result ≤ length claims.now }
{
    let mut gained = 0;
    for claim in claims {
        gained += put_absent(map, claim);
    }
    gained
}

/// Sets the hash of a claim, unless its place is known, and returns how many places are new.
pub(crate) fn put_absent<N: NodeMap>(map: &mut N, claim: &Claim) -> u64
    requires { N.has_room map.old claim.now.layer claim.now.index }
    ensures stays { KeepsMarks (N.seen map.old) (N.seen map.new) }
    ensures held { N.held map.new ≡ N.held map.old }
    ensures known { (N.seen map.new).known ≡ with_new (N.seen map.old).known claim.now }
    ensures gained { finite.len (N.seen map.new).known
        ≡ finite.len (N.seen map.old).known + result }
    ensures one { result ≤ 1 }
    ensures keeps { KeepsRoom (N.has_room map.old) (N.has_room map.new) }
{
    if map.get(claim.layer, claim.index).is_some() {
        return 0;
    }
    map.put(claim.layer, claim.index, claim.hash);
    1
}
