//! What hashes claim of a tree and is not known yet.

ghost use Rattle.std.specs.Prelude.{◌≡◌, ◌⊎◌, ℕ, ◌↔◌, ◌++◌, ◌∷◌, [], ◌≤◌, true, false, IsTrue};
ghost use Rattle.std.specs.Vec.{vec_capacity};

use hashtree::Hash;
use std::alloc::Global;

/// A place with its hash.
#[derive(Clone, Copy)]
pub(crate) struct Claim {
    pub(crate) layer: u32,
    pub(crate) index: u64,
    pub(crate) hash: Hash,
}

/// The claims of places that are not known, as far as there is room to list them.
#[derive(Drop)]
pub(crate) struct NewClaims {
    pub(crate) claims: Vec<Claim>,
    /// A claim is not listed.
    pub(crate) incomplete: bool,
}

impl NewClaims {
    ghost use Rattle.partial_tree.specs.Evidence.{IsEmpty, IsNoted, Grows, AreClaims};
    ghost use Rattle.node_maps.specs.Places.{PartialTree};

    /// Nothing yet, with room for this many claims, or for none if memory is refused.
    pub(crate) fn new(alloc: Global, most: usize) -> NewClaims
        ensures claims { result.claims.items ≡ [] }
        ensures room { vec_capacity result.claims ≤ most }
        ensures complete { result.incomplete ≡ false }
    {
        let claims = match Vec::with_capacity(alloc, most) {
            Ok(claims) => claims,
            Err(_) => Vec::new(alloc),
        };
        NewClaims {
            claims,
            incomplete: false,
        }
    }

    /// Whether no claim is noted.
    pub(crate) fn is_empty(&self) -> bool
        ensures { IsTrue result ↔ IsEmpty self.now }
    {
        !self.incomplete && self.claims.is_empty()
    }

    /// Lists a claim, if there is room.
    pub(crate) fn note(&mut self, claim: Claim)
        ensures noted { IsNoted self.new claim.layer claim.index claim.hash }
        ensures grows { Grows self.old self.new }
        ensures sound { (C : PartialTree) → C claim.layer claim.index ≡ Some claim.hash
            → AreClaims C self.old.claims.items → AreClaims C self.new.claims.items }
        ensures room { vec_capacity self.new.claims ≡ vec_capacity self.old.claims }
    {
        if self.claims.len() < self.claims.capacity() {
            self.claims.push_reserved(claim);
        } else {
            self.incomplete = true;
        }
    }
}
