//! What holds of each torrent file. A function that calls one of these knows its law.

ghost use Rattle.std.specs.Prelude.{◌≡◌};
ghost use Rattle.opening.specs.Refusals.{max_torrent};
ghost use Rattle.opening.specs.Laws.{TorrentIsOne, TorrentIsNotRefused, PlaceIsBlockPlace, RefusalIsOne, TreesAreRoots, TorrentOrRefusal};

use crate::open::MAX_TORRENT;
use benc::laws::{
    fault_is_one, no_spelling_begins_another, spelling_has_no_fault, spells_or_fails,
};

/// Bytes that describe a torrent describe no other.
pub fn torrent_is_one()
    ensures { TorrentIsOne }
{
    no_spelling_begins_another();
}

/// Bytes that describe a torrent are not refused.
pub fn torrent_is_not_refused()
    ensures { TorrentIsNotRefused }
{
    no_spelling_begins_another();
    spelling_has_no_fault();
}

/// Bytes that are refused are refused with one answer.
pub fn refusal_is_one()
    ensures { RefusalIsOne }
{
    no_spelling_begins_another();
    spelling_has_no_fault();
    fault_is_one();
}

/// All bytes describe a torrent, or are refused.
pub fn torrent_or_refusal()
    ensures { TorrentOrRefusal }
{
    spells_or_fails();
}

/// The constant is the most bytes that a torrent file may have.
pub fn max_torrent_is_the_limit()
    ensures { MAX_TORRENT ≡ max_torrent }
{}

/// In a torrent the place that `place_of` computes is the file and block that stand there.
pub fn place_is_block_place()
    ensures { PlaceIsBlockPlace }
{}

/// The trees of a torrent are the distinct roots of its files that are not empty, in the order of
/// first use, each with the length of its files. Each such file has the tree of its root, and an
/// empty file has none.
pub fn trees_are_roots()
    ensures { TreesAreRoots }
{}
