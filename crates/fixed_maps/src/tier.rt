//! One tier of entries.

ghost use Rattle.std.specs.Prelude.{◌≡◌, ◌+◌, ◌<◌, ◌≤◌, ◌++◌, ◌∷◌, ◌↔◌, [], IfOk, IfSome, IfNone, IsTrue, Some, length, take, drop, slice_get};
ghost use Rattle.std.specs.List.{insert, remove};
ghost use Rattle.std.specs.Option.{option_to_list};
ghost use Rattle.std.specs.Ordering.{is_lt};
ghost use Rattle.node_maps.specs.Known.{place_cmp};
ghost use Rattle.fixed_maps.specs.Tiers.{AreRising, IsPlaceOfKey};

use crate::entry::{Entry, Key};
use hashtree::NoMemory;
use std::alloc::Global;
use std::collections::VecDeque;
use std::marker::Model;

/// Entries in a ring, so that at both ends one comes or goes without moving the others. The room
/// for them is taken once, by [`Tier::new`].
#[derive(Drop)]
pub(crate) struct Tier {
    entries: VecDeque<Entry>,
    width: usize,
}

impl Model for Tier {
    ghost use Rattle.std.specs.Prelude.{◌<◌, ◌≤◌, length};
    ghost use Rattle.std.specs.VecDeque.{deque_capacity, deque_len};
    ghost use Rattle.fixed_maps.specs.Tiers.{TierSeen};

    ghost Value = { TierSeen };

    ghost view = { λ t. record {
      items = t.entries.items;
      width = t.width;
      capacity = deque_capacity t.entries;
    } };

    ghost invariant = { λ t. (0 < t.width) × (deque_len t.entries ≤ t.width)
        × (t.width ≤ deque_capacity t.entries) };
}

impl Tier {
    /// No entries, and room for this many, for which alone memory is asked. It fails if memory is
    /// refused. Condition: it is at least one.
    pub(crate) fn new(alloc: Global, width: usize) -> Result<Tier, NoMemory>
        requires { 0 < width }
        ensures none { IfOk result (λ t. t.items ≡ []) }
        ensures width { IfOk result (λ t. t.width ≡ width) }
        ensures memory { IfOk result (λ t. t.capacity ≡ width) }
    {
        let entries = VecDeque::with_capacity(alloc, width)?;
        Ok(Tier { entries, width })
    }

    /// The entry at a place, if there is one.
    pub(crate) fn entry(&self, place: usize) -> Option<Entry>
        ensures { result ≡ slice_get self.now.items place }
    {
        self.entries.get(place).copied()
    }

    /// How many entries it has.
    pub(crate) fn len(&self) -> usize
        ensures { result ≡ length self.now.items }
    {
        self.entries.len()
    }

    /// How many entries have keys below this one. Condition: the keys rise.
    pub(crate) fn place_of(&self, key: Key) -> usize
        requires { AreRising self.now.items }
        ensures inside { result ≤ length self.now.items }
        ensures place { IsPlaceOfKey key (take result self.now.items) (drop result self.now.items) }
    {
        match self.entries.back() {
            None => 0,
            Some(last) if is_below(last, key) => self.entries.len(),
            Some(_) => place_in(&self.entries, key),
        }
    }

    /// Puts an entry at a place, and returns the last one if there is no room for it.
    pub(crate) fn put(&mut self, place: usize, entry: Entry) -> Option<Entry>
        requires { place ≤ length self.old.items }
        ensures items { self.new.items ++ option_to_list result
            ≡ insert self.old.items place entry }
        ensures width { self.new.width ≡ self.old.width }
    {
        if self.entries.len() < self.width {
            let _ = self.entries.insert(place, entry);
            return None;
        }
        if place == self.width {
            return Some(entry);
        }
        let last = self.entries.pop_back();
        let _ = self.entries.insert(place, entry);
        last
    }

    /// Puts an entry at the end, and returns the first one if there is no room for it.
    pub(crate) fn put_last(&mut self, entry: Entry) -> Option<Entry>
        ensures items { option_to_list result ++ self.new.items
            ≡ self.old.items ++ entry ∷ [] }
        ensures width { self.new.width ≡ self.old.width }
        ensures full { IfSome result (λ _. length self.new.items ≡ self.old.width) }
    {
        let first = if self.entries.len() < self.width {
            None
        } else {
            self.entries.pop_front()
        };
        self.entries.push_back_reserved(entry);
        first
    }

    /// Takes out the entry at a place.
    pub(crate) fn take(&mut self, place: usize)
        ensures items { self.new.items ≡ remove self.old.items place }
        ensures width { self.new.width ≡ self.old.width }
    {
        let _ = self.entries.remove(place);
    }
}

// How many entries have keys below this one.
fn place_in(entries: &VecDeque<Entry>, key: Key) -> usize
    requires { AreRising entries.now.items }
    ensures inside { result ≤ length entries.now.items }
    ensures place { IsPlaceOfKey key (take result entries.now.items)
        (drop result entries.now.items) }
{
    let mut low = 0;
    let mut high = entries.len();
    'halves: while low < high {
        let middle = low + (high - low) / 2;
        if is_below(&entries[middle], key) {
            low = middle + 1;
        } else {
            high = middle;
        }
    }
    low
}

// Whether the key of an entry is below another key.
fn is_below(entry: &Entry, key: Key) -> bool
    ensures { result ≡ is_lt (place_cmp entry.now.0 key) }
{
    entry.0.cmp(&key).is_lt()
}
