//! Taking a whole layer, given without the pads at its end.

ghost use Rattle.std.specs.Prelude.{◌≡◌, ℕ, suc, ◌*◌, ◌<◌, OnErr, IfOk, IfErr};
ghost use Rattle.node_maps.specs.Places.{tree_height, IsKnown};
ghost use Rattle.node_maps.specs.Known.{look};
ghost use Rattle.node_maps.specs.Nodes.{KeepsMarks};
ghost use Rattle.partial_tree.specs.Claims.{HasNew};
ghost use Rattle.partial_tree.specs.Fill.{fill_claims, FillRefuses, IsFillAccepted};
ghost use Rattle.partial_tree.specs.Joins.{Joins, TakesLayer};

use crate::message::evidence::Evidence;
use crate::message::storing::{store, store_agreed};
use crate::nodes::TreeNodes;
use crate::refusal::HashRefusal;
use hashtree::{Hash, NoMemory, zero};
use node_maps::NodeMap;
use std::alloc::Global;

impl<N: NodeMap> TreeNodes<N> {
    /// Takes a whole layer, and returns how many places are newly known.
    pub(crate) fn fill(
        &mut self,
        alloc: Global,
        layer: u32,
        hashes: &[Hash],
    ) -> Result<u64, HashRefusal>
        ensures stays { KeepsMarks self.old self.new }
        ensures filled { IfOk result (λ c. TakesLayer self.old.length layer hashes.now
            self.old.known c self.new.known) }
        ensures refused { IfErr result (λ r.
            FillRefuses self.old.length (look self.old.known) layer hashes.now r
            × (self.new ≡ self.old)) }
    {
        if layer > self.height {
            return Err(HashRefusal::BadRange);
        }
        if hashes.len() as u64 != self.shape.pad_from(layer) {
            return Err(HashRefusal::BadCount);
        }
        let evidence = Evidence {
            base: layer,
            index: 0,
            span: self.height - layer,
            hashes,
            pad: zero(layer),
        };
        store(alloc, &mut self.map, &evidence, self.height, 0)
    }

    /// Takes a whole layer that is accepted, and returns how many places are newly known. Each
    /// digest is computed once, and none if the layer is known. Condition: above each known place
    /// its parent is known.
    pub(crate) fn plant(&mut self, layer: u32, hashes: &[Hash]) -> Result<u64, NoMemory>
        requires accepted { IsFillAccepted self.old.length (look self.old.known) layer hashes.now }
        requires upward { (l i : ℕ) → l < tree_height self.old.length
            → IsKnown (look self.old.known) l (2 * i)
            → IsKnown (look self.old.known) (suc l) i }
        ensures stays { KeepsMarks self.old self.new }
        ensures planted { IfOk result (λ c. Joins (fill_claims self.old.length layer hashes.now)
            self.old.known self.new.known c) }
        ensures refused { OnErr result (self.new ≡ self.old) }
        ensures no_memory { OnErr result (HasNew (look self.old.known)
            (fill_claims self.old.length layer hashes.now)) }
    {
        if self.map.knows(layer, 0, 1 << (self.height - layer)) {
            return Ok(0);
        }
        let evidence = Evidence {
            base: layer,
            index: 0,
            span: self.height - layer,
            hashes,
            pad: zero(layer),
        };
        store_agreed(&mut self.map, &evidence, self.height, 0)
    }
}
