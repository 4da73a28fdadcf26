//! Which file is named for a tree, since several files can have one.
ghost use Rattle.std.specs.Prelude.{◌≡◌, ◌<◌, IfSome, length, slice_get};
ghost use Rattle.session.specs.Layouts.{tree_number};
ghost use Rattle.replays.specs.Held.{IsDroppedFrom, IsFirstWith, IsNamed};

use holdings::Hold;
use opening::Torrent;
use session::{NodeMap, Session};

/// The number of a file's tree; `None` for an empty file, or if there is no such file.
pub(crate) fn tree_of_file(torrent: &Torrent<'_>, file: usize) -> Option<usize>
    ensures value { result ≡ tree_number (slice_get torrent.now.files file) }
    ensures there { IfSome result (λ n. n < length torrent.now.trees) }
{
    torrent.recall_sound();
    if file < torrent.files().len() {
        torrent.tree_of(file)
    } else {
        None
    }
}

/// The first file that has this tree.
pub(crate) fn first_with<N: NodeMap>(session: &Session<'_, N>, tree: usize) -> usize
    ensures { IsFirstWith session.now tree result }
{
    let torrent = session.torrent();
    'files: for file in 0..torrent.files().len() {
        if tree_of_file(torrent, file) == Some(tree) {
            return file;
        }
    }
    0
}

/// The file that is named for blocks of a piece that gave way to one of a file at hand.
pub(crate) fn dropped_from<N: NodeMap>(session: &Session<'_, N>, near: usize, hold: Hold) -> usize
    ensures { IsDroppedFrom session.now near hold result }
{
    match hold {
        Hold::Held { dropped: Some(run) } => named(session, near, run.tree),
        _ => near,
    }
}

// The file that is named for a tree: the one at hand, if it has that tree, or the first that has
// it.
fn named<N: NodeMap>(session: &Session<'_, N>, near: usize, tree: usize) -> usize
    ensures { IsNamed session.now near tree result }
{
    if tree_of_file(session.torrent(), near) == Some(tree) {
        near
    } else {
        first_with(session, tree)
    }
}
