//! The laws of what is gathered, and of the whole round trip.

ghost use Rattle.round_trips.specs.Alike.{AlikeWriteAlike};
ghost use Rattle.round_trips.specs.ChangingPlaces.{AddsChangePlaces};
ghost use Rattle.round_trips.specs.Listings.{SortedListingsAreOne};
ghost use Rattle.round_trips.specs.RoundTrip.{RoundTrips};

use drafts::Draft;
use drafts::laws::{draft_describes, draft_is_outline};
use opening::laws::torrent_is_one;

/// What is gathered from a shelf and written is opened again as the draft's torrent, and as no
/// other; and a check of the same contents says yes, devices aside.
pub fn gathered_checks_good(draft: &Draft)
    ensures { RoundTrips draft.now }
{
    draft_is_outline(draft);
    draft_describes();
    torrent_is_one();
}

/// Drafts that are gathered of the same paths and contents are written as the same bytes, however
/// each was made: by reading the files in one go, or of what was hashed in parts.
pub fn alike_write_alike()
    ensures { AlikeWriteAlike }
{}

/// Two lists of all that a shelf lists, each path once and in the order of the file tree, are one:
/// what is hashed in parts has the paths that `gather` reads.
pub fn sorted_listings_are_one()
    ensures { SortedListingsAreOne }
{}

/// Two files that are added to a draft one after the other may change places: it is the same draft,
/// unless both are longer than a piece and have one root, and different layers over it.
pub fn adds_change_places()
    ensures { AddsChangePlaces }
{}
