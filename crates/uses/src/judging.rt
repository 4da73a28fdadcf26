//! What an archive asks of one folder: whether it holds what a torrent says.
ghost use Rattle.std.specs.Prelude.{◌≡◌, IfOk};
ghost use Rattle.uses.specs.Judging.{IsJudged, holding_of};

use checker::{NoMemory, Report, Shelf, check};
use metainfo::Torrent;
use std::alloc::Global;

/// What a shelf holds of a torrent's files.
#[derive(Clone, Copy, Debug, PartialEq, Eq)]
pub enum Holding {
    /// All of them.
    All,
    /// Not all of them.
    NotAll,
    /// A check says no, and a file could not be read.
    Unread,
}

/// Judges what a shelf holds of a torrent's files: after `Ok` there are contents, the folder's
/// where these are known; each verdict but `unreadable` and `v1 not checked` (pieces not compared)
/// is true of them; after a yes they are a good folder; if they are and no file was unreadable, it
/// is a yes. In a good folder each file has its length and root, and a hybrid's version 1 pieces
/// match.
pub fn judge_folder<S: Shelf>(
    alloc: Global,
    torrent: &Torrent<'_>,
    shelf: &mut S,
) -> Result<(Report, Holding), NoMemory>
    ensures { IfOk result (λ r. IsJudged torrent.now (S.contents shelf.old).under
        r.0.files.items r.0.v1 r.1) }
{
    let failures = shelf.failures();
    let report = check(alloc, torrent, shelf)?;
    let holding = judged(report.yes(), shelf.failures() == failures);
    Ok((report, holding))
}

// What a shelf holds, by whether a check said yes and whether nothing failed.
fn judged(yes: bool, all_read: bool) -> Holding
    ensures { result ≡ holding_of yes all_read }
{
    match (yes, all_read) {
        (true, _) => Holding::All,
        (false, true) => Holding::NotAll,
        (false, false) => Holding::Unread,
    }
}
