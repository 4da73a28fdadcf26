//! The places of a torrent: how they are shared out among parts, and which of them a file has.
ghost use Rattle.std.specs.Prelude.{◌≡◌, ◌↔◌, IsTrue, Option, ◌+◌, ◌<◌, ◌≤◌, sum_by};
ghost use Rattle.folders.specs.Verdicts.{IsFileOf};
ghost use Rattle.opening.specs.Seen.{file_entry};
ghost use Rattle.parts.specs.Parts.{Touches, piece_count, place_count};
ghost use Rattle.parts.specs.Shares.{all_bytes, piece_at_byte, share, start};
ghost use Rattle.parts.specs.Spans.{IsSpanned};

use opening::{File, Torrent};

/// The places from one number up to another. Each piece of a torrent is a place, numbered as the
/// torrent numbers its pieces; an empty file stands at the place at which it begins, and there is
/// one place more for those that begin after the last piece.
#[derive(Clone, Copy, Debug, PartialEq, Eq)]
pub struct Places {
    /// The first.
    pub from: u64,
    /// The one after the last.
    pub to: u64,
}

impl Places {
    /// The places of one of this many parts, numbered from 0: from the piece that has the first of
    /// its bytes up to that of the next part. Each part has about as many bytes, and together they
    /// have each place. Condition: there is such a part.
    pub fn of_part(torrent: &Torrent<'_>, part: u64, parts: u64) -> Places
        requires { part < parts }
        ensures { result ≡ share torrent.now part parts }
    {
        Places {
            from: start(torrent, part, parts),
            to: start(torrent, part + 1, parts),
        }
    }
}

// The first place of a part, or the one after all places.
fn start(torrent: &Torrent<'_>, part: u64, parts: u64) -> u64
    requires there { part ≤ parts }
    requires some { 0 < parts }
    ensures { result ≡ start torrent.now part parts }
{
    if part == 0 {
        0
    } else if part == parts {
        place_count(torrent)
    } else {
        place_of_byte(torrent, byte_count(torrent) / parts * part)
    }
}

// How many bytes the files have.
fn byte_count(torrent: &Torrent<'_>) -> u64
    ensures { result ≡ all_bytes torrent.now }
{
    torrent.recall_sound();
    let mut bytes: u64 = 0;
    'files: for file in torrent.files() {
        bytes += file.length;
    }
    bytes
}

// How many places a torrent has: its pieces, and one more.
fn place_count(torrent: &Torrent<'_>) -> u64
    ensures { result ≡ place_count torrent.now }
{
    torrent.recall_sound();
    let mut pieces: u64 = 0;
    'files: for file in torrent.files() {
        pieces += piece_count(torrent, file);
    }
    pieces + 1
}

// The place of this byte of all files, counted one after the other.
fn place_of_byte(torrent: &Torrent<'_>, byte: u64) -> u64
    ensures { result ≡ piece_at_byte torrent.now.piece_length (place_count torrent.now)
        torrent.now.files byte }
{
    torrent.recall_sound();
    let piece_length = torrent.piece_length();
    let mut left = byte;
    'files: for file in torrent.files() {
        if left < file.length {
            return file.first_piece + left / piece_length;
        }
        left -= file.length;
    }
    place_count(torrent)
}

/// How many pieces of this torrent a file has.
pub fn piece_count(torrent: &Torrent<'_>, file: &File<'_>) -> u64
    ensures { result ≡ piece_count torrent.now (file_entry file.now) }
{
    torrent.recall_sound();
    file.length.div_ceil(torrent.piece_length())
}

/// The pieces of a file that are to be checked, from one number up to another, and whether the
/// file's last place is among the part's.
#[derive(Clone, Copy)]
pub(crate) struct Span {
    /// The first.
    pub(crate) from: u64,
    /// The one after the last.
    pub(crate) to: u64,
    /// Whether the file's end is to be checked.
    pub(crate) ends: bool,
}

impl Span {
    ghost use Rattle.parts.specs.Spans.{IsWholeSpan};

    /// All pieces of a file, up to its end.
    pub(crate) fn of_all(torrent: &Torrent<'_>, file: &File<'_>) -> Span
        ensures { IsWholeSpan torrent.now (file_entry file.now) result }
    {
        Span {
            from: 0,
            to: piece_count(torrent, file),
            ends: true,
        }
    }
}

/// What of a file is among these places, if any is. Condition: the torrent has the file.
pub(crate) fn span_of(torrent: &Torrent<'_>, file: &File<'_>, places: Places) -> Option<Span>
    requires { IsFileOf torrent.now (file_entry file.now) }
    ensures { IsSpanned torrent.now places (file_entry file.now) result }
{
    torrent.recall_sound();
    let count = piece_count(torrent, file);
    let last = file.first_piece + (count.max(1) - 1);
    let first = places.from.max(file.first_piece);
    if last < first || places.to <= first {
        return None;
    }
    Some(Span {
        from: first - file.first_piece,
        to: (places.to - file.first_piece).min(count),
        ends: last < places.to,
    })
}

/// Whether one of the file's places is among these: a piece of it, or that at which it begins if it
/// is empty. Condition: the torrent has the file.
pub fn touches(torrent: &Torrent<'_>, file: &File<'_>, places: Places) -> bool
    requires { IsFileOf torrent.now (file_entry file.now) }
    ensures { IsTrue result ↔ Touches torrent.now places (file_entry file.now) }
{
    span_of(torrent, file, places).is_some()
}
