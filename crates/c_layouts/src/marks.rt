//! How many blocks of a file are marked as verified.

ghost use Rattle.std.specs.Prelude.{◌<◌, ◌≤◌, length, IfSome, MatchOption};
ghost use Rattle.c_layouts.specs.Marks.{HasFileMarks, HasTreeMarks};

use hashtree::BLOCK_LENGTH;
use node_maps::Paged;
use session::OwnedSession;

/// How many blocks of a file are marked, and how many it has; `None` if the torrent has no such
/// file. Files of one tree have their marks together.
pub fn count_marks(session: &OwnedSession<Paged>, number: usize) -> Option<(u64, u64)>
    ensures { MatchOption result (length session.now.torrent.files ≤ number)
        (λ counts. HasFileMarks session.now number counts.0 counts.1) }
{
    let torrent = session.torrent();
    torrent.recall_sound();
    match torrent.files().get(number) {
        None => None,
        Some(file) => Some((
            marks_of(session, file.tree),
            file.length.div_ceil(BLOCK_LENGTH),
        )),
    }
}

// How many leaves of a tree are marked, if there is one.
fn marks_of(session: &OwnedSession<Paged>, tree: Option<usize>) -> u64
    requires { IfSome tree (λ n. n < length session.now.torrent.trees) }
    ensures { HasTreeMarks session.now tree result }
{
    match tree {
        None => 0,
        Some(number) => session.marked(number),
    }
}
