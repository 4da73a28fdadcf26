//! The hashes of an answer.

ghost use Rattle.std.specs.Prelude.{◌≡◌, ◌+◌, ◌^◌, ◌≤◌, IfOk};
ghost use Rattle.node_maps.specs.Known.{look};
ghost use Rattle.partial_tree.specs.Claims.{most_span, hash_or_pad, answer_of, CanAnswer};

use crate::message::evidence::sibling;
use hashtree::{Hash, NoMemory, zero};
use node_maps::NodeMap;
use std::alloc::Global;
use wire::Ask;

/// The hashes of the base range of an ask, and then as many uncles as it asks for beside those that
/// the range itself gives, the one nearest the root last.
pub(crate) fn answer_hashes<N: NodeMap>(
    alloc: Global,
    nodes: &N,
    height: u32,
    ask: &Ask,
    span: u32,
) -> Result<Vec<Hash>, NoMemory>
    requires low { height ≤ 32 }
    requires known { CanAnswer height (look (N.seen nodes.now).known) ask.now }
    requires span { 2 ^ span ≡ ask.now.length }
    requires some { 1 ≤ span }
    requires small { span ≤ most_span }
    requires inside { ask.now.base + span ≤ height }
    ensures { IfOk result (λ hashes. hashes.items ≡ answer_of height
        (look (N.seen nodes.now).known) ask.now) }
{
    let uncles = ask
        .proof
        .saturating_sub(span - 1)
        .min(height - ask.base - span);
    let mut hashes = Vec::with_capacity(alloc, (ask.length + uncles) as usize)?;
    nodes.copy_to(
        ask.base,
        u64::from(ask.index),
        u64::from(ask.length),
        &mut hashes,
    );
    'uncles: for j in 0..uncles {
        let above = u64::from(ask.index) >> (span + j);
        hashes.push_reserved(known_or_pad(nodes, ask.base + span + j, sibling(above)));
    }
    Ok(hashes)
}

// The hash at a place; the pad leaf if it is not known.
fn known_or_pad<N: NodeMap>(nodes: &N, layer: u32, index: u64) -> Hash
    ensures { result ≡ hash_or_pad (look (N.seen nodes.now).known) layer index }
{
    nodes.get(layer, index).unwrap_or(zero(0))
}
