//! The pads beside a file's end: on each layer below the root those that lie in one aligned range
//! of 512 places with the node over the last block. They come with the leaves of the last piece.
//!
//! ```text
//!   layer
//!     3                   R
//!                  /             \
//!     2          a                 b
//!              /   \             /   \
//!     1      c       d         e       q      q, over pads alone
//!           / \     / \       / \     / \
//!     0    0   1   2   3     4   p   p   p    p, the pads behind the last block's leaf, 4
//! ```

ghost use Rattle.std.specs.Prelude.{◌≡◌, ℕ, ◌+◌, ◌^◌, ◌<◌, ◌≤◌, OnOk};
ghost use Rattle.std.specs.Bool.{OnTrue, OnFalse};
ghost use Rattle.std.specs.FinMap as finite;
ghost use Rattle.hashtree.specs.Tree.{zero_hash};
ghost use Rattle.node_maps.specs.Known.{look};
ghost use Rattle.node_maps.specs.Nodes.{KeepsMarks};
ghost use Rattle.node_maps.specs.Places.{tree_height};
ghost use Rattle.node_maps.specs.Room.{HasRoomFor, HasRoomInRow, KeepsRoom};
ghost use Rattle.partial_tree.specs.Claims.{HasNew};
ghost use Rattle.partial_tree.specs.EndPads.{last_node, pads_end, end_pads, AreEndPadsKnown};
ghost use Rattle.partial_tree.specs.PadRows.{IsRowPut, ArePadsPut};

use crate::message::found::Claim;
use crate::message::pads::Pads;
use crate::message::writing::put_absent;
use crate::tree::MOST_WANTED;
use hashtree::{Hash, NoMemory, Shape};
use node_maps::NodeMap;

/// Whether these pads are all known.
pub(crate) fn knows_end_pads<N: NodeMap>(map: &N, shape: Shape) -> bool
    requires { (N.seen map.now).length ≡ shape }
    ensures known { OnTrue result (AreEndPadsKnown shape (look (N.seen map.now).known)) }
    ensures new { OnFalse result (HasNew (look (N.seen map.now).known) (end_pads shape)) }
{
    'layers: for layer in 0..shape.height() {
        let (first, count) = pad_row(shape, layer);
        if !map.knows(layer, first, count) {
            return false;
        }
    }
    true
}

/// Makes room for these pads, for each layer in one go.
pub(crate) fn reserve_end_pads<N: NodeMap>(map: &mut N, shape: Shape) -> Result<(), NoMemory>
    requires { (N.seen map.old).length ≡ shape }
    ensures seen { N.seen map.new ≡ N.seen map.old }
    ensures keeps { KeepsRoom (N.has_room map.old) (N.has_room map.new) }
    ensures room { OnOk result (HasRoomFor (end_pads shape) (N.has_room map.new)) }
{
    'layers: for layer in 0..shape.height() {
        let (first, count) = pad_row(shape, layer);
        map.reserve(layer, first, count)?;
    }
    Ok(())
}

/// Sets those of them that are not known, and returns how many these are.
pub(crate) fn put_end_pads<N: NodeMap>(map: &mut N, shape: Shape) -> u64
    requires length { (N.seen map.old).length ≡ shape }
    requires room { HasRoomFor (end_pads shape) (N.has_room map.old) }
    ensures stays { KeepsMarks (N.seen map.old) (N.seen map.new) }
    ensures held { N.held map.new ≡ N.held map.old }
    ensures put { ArePadsPut shape (look (N.seen map.old).known) (look (N.seen map.new).known) }
    ensures gained { finite.len (N.seen map.new).known
        ≡ finite.len (N.seen map.old).known + result }
    ensures few { result ≤ 2 ^ 14 }
{
    let mut pads = Pads::new();
    let mut gained = 0;
    'layers: for layer in 0..shape.height() {
        let (first, count) = pad_row(shape, layer);
        gained += put_row(map, layer, first, count, pads.at(layer));
    }
    gained
}

// Sets one hash at those of `count` places of a layer that are not known, and returns how many
// these are.
fn put_row<N: NodeMap>(map: &mut N, layer: u32, first: u64, count: u64, hash: Hash) -> u64
    requires range { first + count < 2 ^ 64 }
    requires room { HasRoomInRow (N.has_room map.old) layer first count }
    ensures stays { KeepsMarks (N.seen map.old) (N.seen map.new) }
    ensures held { N.held map.new ≡ N.held map.old }
    ensures keeps { KeepsRoom (N.has_room map.old) (N.has_room map.new) }
    ensures put { IsRowPut layer first count hash (look (N.seen map.old).known)
        (look (N.seen map.new).known) }
    ensures gained { finite.len (N.seen map.new).known
        ≡ finite.len (N.seen map.old).known + result }
    ensures few { result ≤ count }
{
    let mut gained = 0;
    'places: for j in 0..count {
        let index = first + j;
        gained += put_absent(map, &Claim { layer, index, hash });
    }
    gained
}

// The pads of a layer below the root's: the first of them, and how many they are.
fn pad_row(shape: Shape, layer: u32) -> (u64, u64)
    requires { layer < tree_height shape }
    ensures first { result.0 ≡ last_node shape layer + 1 }
    ensures end { result.0 + result.1 ≡ pads_end shape layer }
    ensures few { result.1 ≤ 512 }
    ensures low { result.0 + result.1 ≤ 2 ^ 32 }
{
    let height = shape.height();
    let last = (shape.blocks() - 1) >> layer;
    let places = 1u64 << (height - layer);
    let end = places.min((last / MOST_WANTED + 1) * MOST_WANTED);
    (last + 1, end - (last + 1))
}
