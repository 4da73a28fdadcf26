//! An entry that finds no room in its tier goes on to the next one.

ghost use Rattle.std.specs.Prelude.{◌≡◌, ◌<◌, ◌≤◌, ◌++◌, ◌∷◌, [], length, take, drop};
ghost use Rattle.std.specs.Option.{option_to_list};
ghost use Rattle.fixed_maps.specs.Tiers.{after_spot, after_spot_but_one, before_spot, flat, items_at, room_of};

use crate::entry::Entry;
use crate::spot::Spot;
use crate::tier::Tier;

/// Puts an entry at a place. Conditions: there is such a place, and there are fewer entries than
/// there may be.
pub(crate) fn put_at(tiers: &mut [Tier], spot: Spot, entry: Entry)
    requires tier { spot.tier < length tiers.old }
    requires place { spot.place ≤ length (items_at tiers.old spot.tier) }
    requires room { length (flat tiers.old) < room_of tiers.old }
    ensures entries { flat tiers.new ≡ before_spot tiers.old spot.tier spot.place
        ++ entry ∷ after_spot tiers.old spot.tier spot.place }
    ensures room { room_of tiers.new ≡ room_of tiers.old }
{
    let tier = &mut tiers[spot.tier];
    let Some(next) = tier.put(spot.place, entry) else {
        return;
    };
    let Some(last) = carry_on(tiers, spot.tier + 1, next) else {
        return;
    };
    carry_back(tiers, last);
}

/// Takes out the entry at a place.
pub(crate) fn take_at(tiers: &mut [Tier], spot: Spot)
    requires { spot.tier < length tiers.old }
    ensures entries { flat tiers.new ≡ before_spot tiers.old spot.tier spot.place
        ++ after_spot_but_one tiers.old spot.tier spot.place }
    ensures room { room_of tiers.new ≡ room_of tiers.old }
{
    let tier = &mut tiers[spot.tier];
    tier.take(spot.place);
}

// Puts an entry before those of the tiers from one on: at the start of that tier, whose last entry
// goes to the start of the next one if there is no room, and so on. Returns the last entry of all
// if no tier has room.
fn carry_on(tiers: &mut [Tier], from: usize, entry: Entry) -> Option<Entry>
    requires { from ≤ length tiers.old }
    ensures entries { flat tiers.new ++ option_to_list result
        ≡ flat (take from tiers.old) ++ entry ∷ flat (drop from tiers.old) }
    ensures room { room_of tiers.new ≡ room_of tiers.old }
{
    let mut carried = entry;
    'tiers: for at in from..tiers.len() {
        let tier = &mut tiers[at];
        match tier.put(0, carried) {
            None => return None,
            Some(last) => carried = last,
        }
    }
    Some(carried)
}

// Puts an entry after all others: at the end of the last tier, whose first entry goes to the end of
// the one before if there is no room, and so on. Condition: there are fewer entries than there may
// be.
fn carry_back(tiers: &mut [Tier], entry: Entry)
    requires { length (flat tiers.old) < room_of tiers.old }
    ensures entries { flat tiers.new ≡ flat tiers.old ++ entry ∷ [] }
    ensures room { room_of tiers.new ≡ room_of tiers.old }
{
    let mut carried = entry;
    'tiers: for behind in 0..tiers.len() {
        let at = tiers.len() - 1 - behind;
        let tier = &mut tiers[at];
        match tier.put_last(carried) {
            None => return,
            Some(first) => carried = first,
        }
    }
    unreachable!()
}
