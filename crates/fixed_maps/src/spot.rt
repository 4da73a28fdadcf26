//! The place of a key in tiers.

ghost use Rattle.std.specs.Prelude.{◌<◌, length};
ghost use Rattle.fixed_maps.specs.Tiers.{AreRising, IsSpotOf, flat};

use crate::entry::Key;
use crate::tier::Tier;

/// A place in tiers: the tier, and how many of its entries come before.
#[derive(Clone, Copy)]
pub(crate) struct Spot {
    pub(crate) tier: usize,
    pub(crate) place: usize,
}

/// The place of a key. Conditions: there is a tier, and the keys rise.
pub(crate) fn spot_of(tiers: &[Tier], key: Key) -> Spot
    requires some { 0 < length tiers.now }
    requires rising { AreRising (flat tiers.now) }
    ensures { IsSpotOf key tiers.now result.tier result.place }
{
    let last = tiers.len() - 1;
    'tiers: for tier in 0..last {
        let entries = &tiers[tier];
        let place = entries.place_of(key);
        if place < entries.len() {
            return Spot { tier, place };
        }
    }
    let place = tiers[last].place_of(key);
    Spot { tier: last, place }
}
