//! What hashes claim, compared with what is known: nothing is written.

ghost use Rattle.std.specs.Prelude.{◌≡◌, ◌≤◌, ⊤, IfSome, IfNone};
ghost use Rattle.node_maps.specs.Known.{look};
ghost use Rattle.partial_tree.specs.Claims.{IsMismatch};
ghost use Rattle.partial_tree.specs.Evidence.{claimed_by, DiffersFrom, FindsClaims, IsInside, LeadsUp, Notes};

use crate::message::evidence::Evidence;
use crate::message::folding::fold;
use crate::message::found::{Claim, NewClaims};
use crate::message::visitor::Visitor;
use node_maps::NodeMap;
use std::alloc::Global;

// The longest base range has this many places.
const MOST_ASKED: usize = 8192;

// The height of the highest tree.
const MAX_HEIGHT: usize = 32;

// How many claims are listed at most: those of the longest message. They take less than a
// mebibyte.
const MOST_LISTED: usize = 2 * MOST_ASKED + 2 * MAX_HEIGHT;

// Compares each claim with what is known in a map that is lent, and notes it if nothing is known at
// its place. A difference ends the visits.
#[derive(Drop)]
struct Compare<'a, N: NodeMap> {
    map: &'a N,
    found: NewClaims,
}

impl<'a, N: NodeMap> Visitor for Compare<'a, N> {
    ghost use Rattle.std.proofs.Common.{subst};

    ghost admits = { λ v c. ⊤ };

    ghost visits = { λ v c w. (w.map.now ≡ v.map.now)
        × Notes (N.seen v.map.now).known v.found c w.found };

    ghost stops = { λ v c. DiffersFrom (N.seen v.map.now).known c };

    fn visit(&mut self, claim: Claim) -> Option<()> {
        match self.map.get(claim.layer, claim.index) {
            Some(known) if known == claim.hash => Some(()),
            Some(_) => None,
            None => {
                self.found.note(claim);
                Some(())
            }
        }
    }

    ghost admits_after = { λ v w c d is has. has };

    ghost stops_before = { λ v w c d is differs.
        subst (λ m. DiffersFrom (N.seen m).known d) is.0 differs };
}

/// What the evidence claims, up to the layer of the place to which it leads, at places that are not
/// known. `None` if it differs somewhere from what is known.
pub(crate) fn find_new<N: NodeMap>(
    alloc: Global,
    map: &N,
    evidence: &Evidence,
    layer: u32,
) -> Option<NewClaims>
    requires leads { LeadsUp evidence.now layer }
    ensures found { IfSome result
        (FindsClaims (look (N.seen map.now).known) (claimed_by evidence.now)) }
    ensures differs { IfNone result (IsMismatch (look (N.seen map.now).known)
        (claimed_by evidence.now)) }
{
    let found = NewClaims::new(alloc, room_for(evidence));
    let mut compare = Compare { map, found };
    fold(&mut compare, evidence, layer)?;
    Some(compare.found)
}

// Room for all that a message claims: 16,448 places at most. None for a layer that claims more.
fn room_for(evidence: &Evidence) -> usize
    requires { IsInside evidence.now }
    ensures { result ≤ 16448 }
{
    let most = (2usize << evidence.span) + 2 * MAX_HEIGHT;
    if most <= MOST_LISTED { most } else { 0 }
}
