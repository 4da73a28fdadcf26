//! The store in which stretches of pieces wait for their step.

ghost use Rattle.std.specs.Prelude.{◌≡◌, ◌≢◌, ℕ, suc, ◌+◌, ◌-◌, ◌*◌, ◌%◌, ◌<◌, ◌≤◌, ◌++◌, [], List, IfSome, length, take, vec_len};
ghost use Rattle.std.specs.Vec.{vec_capacity};
ghost use Rattle.sha1.specs.Sha1.{sha1};
ghost use Rattle.sha1_lanes.specs.Relays.{HasPassed};
ghost use Rattle.lanes.specs.declared.words.TheConstants.{LANES};
ghost use Rattle.pieces.specs.Slot.{slot_of};
ghost use Rattle.pieces.specs.declared.slots.TheConstants.{SLOTS};

use crate::room::room_of_zeros;
use crate::slots::{SLOTS, starts_of};
use lanes::LANES;
use sha1_lanes::Relay;
use std::alloc::Global;

// The most bytes that a store has: 64 MiB.
const MOST: usize = 67_108_864;

/// A slot for each stretch that waits.
#[derive(Drop)]
pub(crate) struct Store {
    bytes: Vec<u8>,
    // How many bytes a slot has, which is as many as a stretch has.
    size: usize,
    ghost slots: { vec_len bytes ≡ SLOTS * size },
    ghost exact: { vec_capacity bytes ≡ SLOTS * size },
    ghost most: { SLOTS * size ≤ 67108864 },
    ghost some: { 0 < size },
    ghost whole_blocks: { size % 64 ≡ 0 },
}

impl Store {
    ghost use Rattle.pieces.specs.Stored.{PutsMore, slot_bytes};

    /// A store for stretches of this length: `None` if it would have more than 64 MiB, or memory
    /// for it is refused. Conditions: the length is a multiple of 64 above 0.
    pub(crate) fn of(alloc: Global, size: usize) -> Option<Store>
        requires some { 0 < size }
        requires whole_blocks { size % 64 ≡ 0 }
        ensures { IfSome result (λ s. s.size ≡ size) }
    {
        if size > MOST / SLOTS {
            return None;
        }
        let bytes = room_of_zeros(alloc, SLOTS * size)?;
        Some(Store { bytes, size })
    }

    /// How many bytes a slot has.
    pub(crate) fn size(&self) -> usize
        ensures size { result ≡ self.now.size }
        ensures some { 0 < result }
    {
        self.size
    }

    /// Writes these bytes into a slot, from this byte of it on.
    pub(crate) fn put(&mut self, slot: usize, at: usize, bytes: &[u8])
        requires slot { slot < SLOTS }
        requires room { at + length bytes.now ≤ self.old.size }
        ensures { PutsMore self.old self.new slot at bytes.now }
    {
        let start = slot * self.size + at;
        self.bytes.as_mut_slice()[start..start + bytes.len()].copy_from_slice(bytes);
    }

    /// The first bytes of a slot.
    pub(crate) fn front(&self, slot: usize, n: usize) -> &[u8]
        requires slot { slot < SLOTS }
        requires within { n ≤ self.now.size }
        ensures { result.now ≡ take n (slot_bytes self.now slot) }
    {
        let start = slot * self.size;
        &self.bytes.as_slice()[start..start + n]
    }

    /// Gives the messages in the lanes of a relay the stretches that wait for this step.
    pub(crate) fn step(&self, relay: &mut Relay, step: u64) -> [u8; 20]
        ensures passes { (j : ℕ) → suc j < LANES → (m : List ℕ) → HasPassed relay.old j m
            → HasPassed relay.new (suc j) (m ++ slot_bytes self.now (slot_of step j)) }
        ensures begins { HasPassed relay.new 0 [] }
        ensures digest { (m : List ℕ) → HasPassed relay.old (LANES - 1) m
            → length m ≡ (LANES - 1) * self.now.size
            → result ≡ sha1 (m ++ slot_bytes self.now (slot_of step (LANES - 1))) }
    {
        let starts = starts_of(step, self.size);
        relay.step(self.bytes.as_slice(), &starts, self.size)
    }
}
