//! An ordered map with room for a number of entries.

ghost use Rattle.std.specs.Prelude.{◌≡◌, ℕ, ◌*◌, ◌^◌, ◌<◌, ◌≤◌, [], IfOk, IfSome, IfNone, Some, None, true, false, length, slice_get, vec_capacity};
ghost use Rattle.std.specs.FinMap.{empty, get, insert, len, remove};
ghost use Rattle.std.specs.Ordering.{is_lt};
ghost use Rattle.node_maps.specs.Known.{place_cmp};
ghost use Rattle.fixed_maps.specs.Tiers.{AreRising, capacity_of, flat, items_at, room_of};

use crate::entry::{Key, Value};
use crate::spot::spot_of;
use crate::tier::Tier;
use crate::tiers::{put_at, take_at};
use hashtree::NoMemory;
use std::alloc::Global;
use std::marker::Model;

// How many entries a tier has room for, at least; and how many tiers there are, at most and
// but for one.
const WIDTH: usize = 4096;

/// An ordered map from keys to values, with room for a number of entries that is taken once, by
/// [`FixedMap::new`]. The entries stand in rows of some thousand, each with a ring of its own. One
/// that comes or goes moves some of its own row, and then one of each other row at most.
#[derive(Drop)]
pub struct FixedMap {
    tiers: Vec<Tier>,
    len: usize,
}

impl Model for FixedMap {
    ghost use Rattle.std.specs.Vec.{vec_capacity};
    ghost use Rattle.fixed_maps.specs.FixedMaps.{FixedMapSeen, IsFixedMap, fixed_map_code};

    ghost Value = { FixedMapSeen };

    ghost coded = { fixed_map_code };

    ghost view = { λ m. record { tiers = m.tiers.items } };

    ghost invariant = { λ m. IsFixedMap m.tiers.items m.len (vec_capacity m.tiers) };
}

impl FixedMap {
    ghost use Rattle.fixed_maps.specs.FixedMaps.{map_of, map_capacity, map_room, most_room};

    /// No entries, and room for at least this many, and for 4,096 and a 4,096th more at most. It
    /// fails if memory is refused. Memory that is asked for is not written before entries come.
    /// Condition: the room is 2^32 at most.
    pub fn new(alloc: Global, room: usize) -> Result<FixedMap, NoMemory>
        requires { room ≤ 2 ^ 32 }
        ensures none { IfOk result (λ m. map_of m ≡ empty) }
        ensures room { IfOk result (λ m. room ≤ map_room m) }
        ensures most { IfOk result (λ m. map_room m ≤ most_room room) }
        ensures memory { IfOk result (λ m. map_capacity m ≡ map_room m) }
    {
        let width = WIDTH.max(room / WIDTH).min(room).max(1);
        let count = room / width + 1;
        let tiers = tiers_of(alloc, count, width)?;
        Ok(FixedMap { tiers, len: 0 })
    }

    /// How many entries it has.
    pub fn len(&self) -> usize
        ensures { result ≡ len (map_of self.now) }
    {
        self.len
    }

    /// The value of a key.
    pub fn get(&self, key: Key) -> Option<Value>
        ensures { result ≡ get (map_of self.now) key }
    {
        let (found, value) = self.at_least(key)?;
        if key.cmp(&found).is_eq() {
            Some(value)
        } else {
            None
        }
    }

    /// The first entry whose key is not below this one.
    pub fn at_least(&self, key: Key) -> Option<(Key, Value)>
        ensures there { IfSome result (λ e. get (map_of self.now) e.0 ≡ Some e.1) }
        ensures from { IfSome result (λ e. is_lt (place_cmp e.0 key) ≡ false) }
        ensures least { IfSome result (λ e. (q : ℕ × ℕ) → is_lt (place_cmp q key) ≡ false
            → is_lt (place_cmp q e.0) ≡ true → get (map_of self.now) q ≡ None) }
        ensures none { IfNone result ((q : ℕ × ℕ) → is_lt (place_cmp q key) ≡ false
            → get (map_of self.now) q ≡ None) }
    {
        let spot = spot_of(&self.tiers, key);
        let tier = &self.tiers[spot.tier];
        tier.entry(spot.place)
    }

    /// The first entry of all.
    pub fn first(&self) -> Option<(Key, Value)>
        ensures there { IfSome result (λ e. get (map_of self.now) e.0 ≡ Some e.1) }
        ensures least { IfSome result (λ e. (q : ℕ × ℕ) → is_lt (place_cmp q e.0) ≡ true
            → get (map_of self.now) q ≡ None) }
        ensures none { IfNone result ((q : ℕ × ℕ) → get (map_of self.now) q ≡ None) }
    {
        self.at_least((0, 0))
    }

    /// In how many tiers the entries stand.
    pub fn tiers(&self) -> usize
        ensures tiers { result ≡ length self.now.tiers }
        ensures rising { AreRising (flat self.now.tiers) }
    {
        self.tiers.len()
    }

    /// The entry at a place of a tier, if there is one. All entries of a tier come before those of
    /// the next one. Condition: there are more tiers than `tier`.
    pub fn entry(&self, tier: usize, place: usize) -> Option<(Key, Value)>
        requires { tier < length self.now.tiers }
        ensures at { result ≡ slice_get (items_at self.now.tiers tier) place }
        ensures there { IfSome result (λ e. get (map_of self.now) e.0 ≡ Some e.1) }
    {
        let tier = &self.tiers[tier];
        tier.entry(place)
    }

    /// Adds an entry. Conditions: its key is new, and there are fewer entries than there may be.
    pub fn insert(&mut self, key: Key, value: Value)
        requires new { get (map_of self.old) key ≡ None }
        requires room { len (map_of self.old) < map_room self.old }
        ensures map { map_of self.new ≡ insert (map_of self.old) key value }
        ensures room { map_room self.new ≡ map_room self.old }
    {
        let spot = spot_of(&self.tiers, key);
        put_at(&mut self.tiers, spot, (key, value));
        self.len += 1;
    }

    /// Takes out the entry of a key, if there is one.
    pub fn remove(&mut self, key: Key)
        ensures map { map_of self.new ≡ remove (map_of self.old) key }
        ensures room { map_room self.new ≡ map_room self.old }
    {
        let spot = spot_of(&self.tiers, key);
        let tier = &self.tiers[spot.tier];
        let Some((found, _)) = tier.entry(spot.place) else {
            return;
        };
        if key.cmp(&found).is_eq() {
            take_at(&mut self.tiers, spot);
            self.len -= 1;
        }
    }
}

// Tiers with no entries, and room for this many in each and memory for no more.
fn tiers_of(alloc: Global, count: usize, width: usize) -> Result<Vec<Tier>, NoMemory>
    requires { 0 < width }
    ensures count { IfOk result (λ ts. length ts.items ≡ count) }
    ensures none { IfOk result (λ ts. flat ts.items ≡ []) }
    ensures room { IfOk result (λ ts. room_of ts.items ≡ count * width) }
    ensures memory { IfOk result (λ ts. capacity_of ts.items ≡ room_of ts.items) }
    ensures exact { IfOk result (λ ts. vec_capacity ts ≡ count) }
{
    let mut tiers = Vec::with_capacity(alloc, count)?;
    'each: for _i in 0..count {
        tiers.push_reserved(Tier::new(alloc, width)?);
    }
    Ok(tiers)
}
