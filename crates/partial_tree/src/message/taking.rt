//! Taking a hashes message: its tests in order, and then what it claims (BEP 52, "hashes").

ghost use Rattle.std.specs.Prelude.{◌≡◌, ℕ, ◌+◌, ◌-◌, ◌/◌, ◌^◌, ◌<◌, ◌≤◌, OnOk, IfOk, IfErr, length};
ghost use Rattle.std.specs.Bool.{OnTrue, OnFalse};
ghost use Rattle.node_maps.specs.Places.{tree_height, IsKnown, IsTreePlace};
ghost use Rattle.partial_tree.specs.Claims.{most_span, IsBadPad, ArePadsRight, GoodRange, GoodCount, TreeRefuses};
ghost use Rattle.node_maps.specs.Known.{look};
ghost use Rattle.node_maps.specs.Nodes.{KeepsMarks};
ghost use Rattle.partial_tree.specs.Joins.{TakesHashes};
ghost use Rattle.partial_tree.specs.MessagePages.{most_pages};

use crate::message::checks::{base_pads_fit, check_count, check_range, uncle_pads_fit};
use crate::message::evidence::Evidence;
use crate::message::pads::Pads;
use crate::message::storing::store;
use crate::nodes::TreeNodes;
use crate::refusal::HashRefusal;
use hashtree::{Hash, Shape, zero};
use node_maps::NodeMap;
use std::alloc::Global;
use wire::Ask;

impl<N: NodeMap> TreeNodes<N> {
    /// Takes a hashes message, and returns how many places are newly known. Condition: what is
    /// known lies in the tree.
    pub(crate) fn take(
        &mut self,
        alloc: Global,
        ask: &Ask,
        hashes: &[Hash],
    ) -> Result<u64, HashRefusal>
        requires { (l i : ℕ) → IsKnown (look self.old.known) l i
            → IsTreePlace (tree_height self.old.length) l i }
        ensures stays { KeepsMarks self.old self.new }
        ensures few { OnOk result
            (N.needed self.new.known ≤ N.needed self.old.known + most_pages) }
        ensures taken { IfOk result (λ c. TakesHashes self.old.length ask.now hashes.now
            self.old.known c self.new.known) }
        ensures refused { IfErr result (λ r.
            TreeRefuses self.old.length (look self.old.known) ask.now hashes.now r
            × (self.new ≡ self.old)) }
    {
        let span = check_range(self.height, ask)?;
        let top = check_count(self.height, ask, span, hashes)?;
        if !pads_fit(self.shape, ask, span, hashes) {
            return Err(HashRefusal::BadPad);
        }
        let index = u64::from(ask.index) >> (top - ask.base);
        if self.map.get(top, index).is_none() {
            return Err(HashRefusal::Unanchored);
        }
        let evidence = Evidence {
            base: ask.base,
            index: u64::from(ask.index),
            span,
            hashes,
            pad: zero(0),
        };
        store(alloc, &mut self.map, &evidence, top, index)
    }
}

// Whether each given hash wholly past the file's end is that over pads.
fn pads_fit(shape: Shape, ask: &Ask, span: u32, hashes: &[Hash]) -> bool
    requires range { GoodRange (tree_height shape) ask.now }
    requires low { tree_height shape ≤ 32 }
    requires span { 2 ^ span ≡ ask.now.length }
    requires some { 1 ≤ span }
    requires small { span ≤ most_span }
    requires count { GoodCount (tree_height shape) ask.now hashes.now }
    ensures fit { OnTrue result (ArePadsRight shape ask.now hashes.now) }
    ensures not { OnFalse result (IsBadPad shape ask.now hashes.now) }
{
    let blocks = shape.blocks();
    let (base, uncles) = hashes.split_at(ask.length as usize);
    let mut pads = Pads::new();
    if !base_pads_fit(blocks, ask.base, u64::from(ask.index), base, &mut pads) {
        return false;
    }
    uncle_pads_fit(
        blocks,
        ask.base + span,
        u64::from(ask.index) >> span,
        uncles,
        &mut pads,
    )
}
