//! Where the parts of a check begin, counted from one to the next.
ghost use Rattle.std.specs.Prelude.{◌≡◌, ◌+◌, ◌*◌, ◌<◌, ◌≤◌};
ghost use Rattle.parts.specs.Parts.{place_count};
ghost use Rattle.parts.specs.Shares.{piece_at_byte, start};

use opening::Torrent;
use parts::piece_count;

/// A torrent that is divided into parts.
#[derive(Clone, Copy)]
pub(crate) struct Division {
    /// How many parts there are.
    pub(crate) parts: u64,
    /// How many bytes each part has, but for what whole pieces and the last part add.
    pub(crate) part_bytes: u64,
    /// How many pieces the torrent has.
    pub(crate) pieces: u64,
}

/// Where a part begins.
#[derive(Clone, Copy)]
pub(crate) struct Start {
    /// Its first place.
    pub(crate) place: u64,
    /// The number of a file before which the part has no bytes.
    pub(crate) file: usize,
    /// How many bytes the files before that one have.
    pub(crate) bytes: u64,
}

impl Division {
    ghost use Rattle.part_reports.specs.Starts.{IsDivision, IsPassed};

    /// The torrent divided into this many parts. Condition: there is one.
    pub(crate) fn of(torrent: &Torrent<'_>, parts: u64) -> Division
        requires { 0 < parts }
        ensures { IsDivision torrent.now parts result }
    {
        torrent.recall_sound();
        let mut bytes: u64 = 0;
        let mut pieces: u64 = 0;
        'files: for file in torrent.files() {
            bytes += file.length;
            pieces += piece_count(torrent, file);
        }
        Division {
            parts,
            part_bytes: bytes / parts,
            pieces,
        }
    }

    /// Where the first part begins.
    pub(crate) fn first_start(&self) -> Start
        ensures place { result.place ≡ 0 }
        ensures file { result.file ≡ 0 }
        ensures bytes { result.bytes ≡ 0 }
    {
        Start {
            place: 0,
            file: 0,
            bytes: 0,
        }
    }

    /// Where this part begins, or the one after the last, counted from the start of an earlier one.
    pub(crate) fn start(&self, torrent: &Torrent<'_>, part: u64, before: Start) -> Start
        requires division { IsDivision torrent.now self.now.parts self.now }
        requires some { 0 < part }
        requires there { part ≤ self.now.parts }
        requires passed { IsPassed torrent.now before (self.now.part_bytes * part) }
        ensures place { result.place ≡ start torrent.now part self.now.parts }
        ensures passed { IsPassed torrent.now result (self.now.part_bytes * part) }
    {
        torrent.recall_sound();
        if part == self.parts {
            return Start {
                place: self.pieces + 1,
                file: before.file,
                bytes: before.bytes,
            };
        }
        self.start_at(torrent, self.part_bytes * part, before)
    }

    // The start at the piece that has this byte of the files.
    fn start_at(&self, torrent: &Torrent<'_>, byte: u64, before: Start) -> Start
        requires pieces { self.now.pieces + 1 ≡ place_count torrent.now }
        requires passed { IsPassed torrent.now before byte }
        ensures place { result.place ≡ piece_at_byte torrent.now.piece_length
            (place_count torrent.now) torrent.now.files byte }
        ensures passed { IsPassed torrent.now result byte }
    {
        torrent.recall_sound();
        let piece_length = torrent.piece_length();
        let files = torrent.files();
        let mut left = byte - before.bytes;
        'files: for i in before.file..files.len() {
            let file = &files[i];
            if left < file.length {
                return Start {
                    place: file.first_piece + left / piece_length,
                    file: i,
                    bytes: byte - left,
                };
            }
            left -= file.length;
        }
        Start {
            place: self.pieces + 1,
            file: files.len(),
            bytes: byte - left,
        }
    }
}
