//! The tests of a hashes message that need nothing of what is known.

ghost use Rattle.std.specs.Prelude.{◌≡◌, ◌≢◌, ℕ, ◌+◌, ◌-◌, ◌*◌, ◌/◌, ◌%◌, ◌^◌, ◌<◌, ◌≤◌, ◌↔◌, List, [], length, slice_index_or, IsTrue, IfOk, IfErr, Some, IfSome, IfNone};
ghost use Rattle.wire.specs.declared.message.Ask.{Ask as Asked};
ghost use Rattle.partial_tree.specs.declared.refusal.HashRefusal.TheVariants.{BadRange, BadCount};
ghost use Rattle.hashtree.specs.Tree.{zero_hash};
ghost use Rattle.partial_tree.specs.Claims.{most_span, sibling, top_layer, GoodRange, GoodCount};

use crate::message::evidence::sibling;
use crate::message::pads::Pads;
use crate::refusal::HashRefusal;
use hashtree::Hash;
use wire::Ask;

// A base range is two to at most this power places long.
const MOST_SPAN: u32 = 13;

/// The span of a base range that lies in a tree of this height, at a multiple of its length.
pub(crate) fn check_range(height: u32, ask: &Ask) -> Result<u32, HashRefusal>
    requires { height ≤ 32 }
    ensures good { IfOk result (λ k. GoodRange height ask.now × (2 ^ k ≡ ask.now.length) × (1 ≤ k)
        × (k ≤ most_span)) }
    ensures bad { IfErr result (λ r. (r ≡ BadRange) × ¬ GoodRange height ask.now) }
{
    let span = match span_of(ask.length) {
        None => return Err(HashRefusal::BadRange),
        Some(span) => span,
    };
    if ask.index % ask.length != 0 {
        return Err(HashRefusal::BadRange);
    }
    if ask.base > height {
        return Err(HashRefusal::BadRange);
    }
    if u64::from(ask.index) + u64::from(ask.length) > 1u64 << (height - ask.base) {
        return Err(HashRefusal::BadRange);
    }
    Ok(span)
}

/// The layer of the top, if no base hash is missing and the uncles are no more than were asked for
/// and do not pass the root.
pub(crate) fn check_count(
    height: u32,
    ask: &Ask,
    span: u32,
    hashes: &[Hash],
) -> Result<u32, HashRefusal>
    requires height { height ≤ 32 }
    requires base { ask.now.base ≤ height }
    requires span { 2 ^ span ≡ ask.now.length }
    requires small { span ≤ most_span }
    ensures good { IfOk result (λ top. GoodCount height ask.now hashes.now
        × (top ≡ top_layer ask.now hashes.now)) }
    ensures bad { IfErr result (λ r. (r ≡ BadCount) × ¬ GoodCount height ask.now hashes.now) }
{
    let count = hashes.len() as u64;
    let length = u64::from(ask.length);
    if count < length {
        return Err(HashRefusal::BadCount);
    }
    let uncles = count - length;
    if uncles > u64::from(ask.proof) {
        return Err(HashRefusal::BadCount);
    }
    let top = u64::from(ask.base + span) + uncles;
    if top > u64::from(height) {
        return Err(HashRefusal::BadCount);
    }
    Ok(top as u32)
}

/// Whether each hash of a layer from a place on that covers nothing of the file is that over pads.
pub(crate) fn base_pads_fit(
    blocks: u64,
    base: u32,
    index: u64,
    hashes: &[Hash],
    pads: &mut Pads,
) -> bool
    requires base { base ≤ 32 }
    requires inside { (index + length hashes.now) * 2 ^ base ≤ 2 ^ 32 }
    requires upward { pads.old.layer ≤ base }
    ensures fit { IsTrue result ↔ ((j : ℕ) → j < length hashes.now
        → blocks ≤ (index + j) * 2 ^ base → slice_index_or hashes.now j [] ≡ zero_hash base) }
    ensures upward { pads.new.layer ≤ base }
{
    let width = 1u64 << base;
    for (j, hash) in hashes.iter().enumerate() {
        if !pad_fits(blocks, (index + j as u64) * width, hash, base, pads) {
            return false;
        }
    }
    true
}

/// Whether each uncle above a node that covers nothing of the file is the hash over pads.
pub(crate) fn uncle_pads_fit(
    blocks: u64,
    cover: u32,
    node: u64,
    uncles: &[Hash],
    pads: &mut Pads,
) -> bool
    requires layers { cover + length uncles.now ≤ 32 }
    requires node { node * 2 ^ cover < 2 ^ 32 }
    requires upward { pads.old.layer ≤ cover }
    ensures { IsTrue result ↔ ((j : ℕ) → j < length uncles.now
        → blocks ≤ sibling (node / 2 ^ j) * 2 ^ (cover + j)
        → slice_index_or uncles.now j [] ≡ zero_hash (cover + j)) }
{
    let mut layer = cover;
    let mut width = 1u64 << cover;
    let mut above = node;
    for uncle in uncles {
        if !pad_fits(blocks, sibling(above) * width, uncle, layer, pads) {
            return false;
        }
        layer += 1;
        width *= 2;
        above /= 2;
    }
    true
}

// The power of two that a length from 2 to 8192 is, if it is one.
fn span_of(length: u32) -> Option<u32>
    ensures found { IfSome result (λ k. (2 ^ k ≡ length) × (1 ≤ k) × (k ≤ most_span)) }
    ensures none { IfNone result ((k : ℕ) → 1 ≤ k → k ≤ most_span → 2 ^ k ≢ length) }
{
    for span in 1..MOST_SPAN + 1 {
        if length == 1 << span {
            return Some(span);
        }
    }
    None
}

// Whether a hash that covers the leaves from `start` on is that over pads, if these leaves cover
// nothing of the file.
fn pad_fits(blocks: u64, start: u64, hash: &Hash, layer: u32, pads: &mut Pads) -> bool
    requires low { layer ≤ 32 }
    requires upward { pads.old.layer ≤ layer }
    ensures fits { IsTrue result ↔ (blocks ≤ start → hash.now ≡ zero_hash layer) }
    ensures upward { pads.new.layer ≤ layer }
{
    start < blocks || *hash == pads.at(layer)
}
