//! A partial tree behind an interface, so that sessions are proved once for every way to keep it.

ghost use Rattle.std.specs.Prelude.{◌≡◌, ℕ, ◌+◌, ◌-◌, ◌^◌, ◌<◌, ◌≤◌, ◌++◌, ◌↔◌, IsOk, IsTrue, OnErr, OnOk, vec_len};
ghost use Rattle.std.specs.Vec.{vec_capacity};
ghost use Rattle.std.specs.FinMap as finite;
ghost use Rattle.std.specs.FinSet as set;
ghost use Rattle.node_maps.specs.Places.{tree_height, IsKnown};
ghost use Rattle.node_maps.specs.Known.{Known, look};
ghost use Rattle.node_maps.specs.Nodes.{Nodes, no_nodes, with_mark, with_node};
ghost use Rattle.node_maps.specs.Room.{Room, HasRoomInRow, KeepsRoom, page_span};
ghost use Rattle.node_maps.specs.Runs.{AreKnown, hashes_from};

use hashtree::{Hash, NoMemory, Shape};
use std::alloc::Global;

/// The known nodes and the marked leaves of one tree, however they are kept.
pub trait NodeMap: Drop {
    /// The length of the tree's files, which fixes its places, the known places with their hashes,
    /// and the marked leaves.
    ghost seen: { Self → Nodes };

    /// How many pages are held.
    ghost held: { Self → ℕ };

    /// How many pages a content takes, if no page is held that it does not need.
    ghost needed: { Known → ℕ };

    /// The places that have room: a `put` there cannot fail.
    ghost has_room: { Self → Room };

    /// Nothing is known or marked. Takes no memory.
    fn empty(alloc: Global, shape: Shape) -> Self
    where
        Self: Sized,
        ensures seen { seen result ≡ no_nodes shape }
        ensures held { held result ≡ needed (seen result).known };

    /// The hash at a place, if it is known.
    fn get(&self, layer: u32, index: u64) -> Option<Hash>
        ensures { result ≡ look (seen self.now).known layer index };

    /// Whether the hashes of `count` places of a layer are known, from one on. Condition:
    /// `from + count` is below 2^64.
    fn knows(&self, layer: u32, from: u64, count: u64) -> bool
        requires { from + count < 2 ^ 64 }
        ensures { IsTrue result ↔ AreKnown (look (seen self.now).known layer) from count };

    /// Appends the hashes of `count` places of a layer, from one on, to a list. Takes no memory.
    /// Conditions: `from + count` is below 2^64, the hashes are known, and the list has room for
    /// them.
    fn copy_to(&self, layer: u32, from: u64, count: u64, out: &mut Vec<Hash>)
        requires range { from + count < 2 ^ 64 }
        requires known { AreKnown (look (seen self.now).known layer) from count }
        requires room { vec_len out.old + count ≤ vec_capacity out.old }
        ensures copied { out.new.items
            ≡ out.old.items ++ hashes_from (look (seen self.now).known layer) from count }
        ensures no_memory { vec_capacity out.new ≡ vec_capacity out.old };

    /// Makes room for `count` places of a layer, from one on. Content, marks and the room that
    /// there is stay. It makes no more pages than have one of these places, and a refusal gives
    /// back those that it made. If there is room already, it takes no memory and cannot fail.
    /// Conditions: the layer is at most the tree's height, and `from + count` is at most the number
    /// of its places, 2^(height - layer).
    fn reserve(&mut self, layer: u32, from: u64, count: u64) -> Result<(), NoMemory>
        requires layer { layer ≤ tree_height (seen self.old).length }
        requires range { from + count ≤ 2 ^ (tree_height (seen self.old).length - layer) }
        ensures seen { seen self.new ≡ seen self.old }
        ensures keeps { KeepsRoom (has_room self.old) (has_room self.new) }
        ensures room { OnOk result (HasRoomInRow (has_room self.new) layer from count) }
        ensures few { OnOk result (held self.new ≤ held self.old + page_span from count) }
        ensures refused { OnErr result (held self.new ≡ held self.old) }
        ensures no_memory { HasRoomInRow (has_room self.old) layer from count → IsOk result };

    /// Sets the hash at a place. Condition: the place has room.
    fn put(&mut self, layer: u32, index: u64, hash: Hash)
        requires { has_room self.old layer index }
        ensures seen { seen self.new ≡ with_node (seen self.old) layer index hash }
        ensures held { held self.new ≡ held self.old }
        ensures keeps { KeepsRoom (has_room self.old) (has_room self.new) };

    /// Marks a leaf. Condition: it is known.
    fn mark(&mut self, index: u64)
        requires { IsKnown (look (seen self.old).known) 0 index }
        ensures seen { seen self.new ≡ with_mark (seen self.old) index }
        ensures held { held self.new ≡ held self.old }
        ensures keeps { KeepsRoom (has_room self.old) (has_room self.new) };

    /// Whether a leaf is marked.
    fn is_marked(&self, index: u64) -> bool
        ensures { result ≡ set.contains (seen self.now).marked index };

    /// Gives back the pages that hold no hash. Content and marks stay; room may go. Takes no
    /// memory.
    fn trim(&mut self)
        ensures seen { seen self.new ≡ seen self.old }
        ensures held { held self.new ≡ needed (seen self.new).known }
        ensures few { held self.new ≤ held self.old };

    /// How many pages are held. Takes no memory.
    fn pages(&self) -> u64
        ensures { result ≡ held self.now };

    /// A content takes no more pages than it has places.
    ghost needs_few: { (K : Known) → needed K ≤ finite.len K };
}
