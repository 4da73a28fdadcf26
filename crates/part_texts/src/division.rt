//! How the pieces of listed files are shared out among parts, by bytes.
ghost use Rattle.std.specs.Prelude.{◌≡◌, ◌+◌, ◌-◌, ◌<◌, ◌≤◌, map};
ghost use Rattle.part_texts.specs.Divisions.{bytes_of, first_piece, has_end, hashed, offset_of, span_of, start_of, total_of};
ghost use Rattle.part_texts.specs.Listings.{listed};

use crate::listing::ListedFile;
use hashtree::MAX_LENGTH;
use pieces::PieceLength;

/// The pieces of one file that one part has.
#[derive(Clone, Copy, Debug, PartialEq, Eq)]
pub struct Span {
    /// The first, by its number in the file.
    pub from: u64,
    /// The one after the last.
    pub to: u64,
    /// Whether the file's end is the part's too.
    pub ends: bool,
}

/// A division of all bytes of some files, one behind the other, among parts. A part has the pieces
/// that begin among its bytes; an empty file is where it would begin.
#[derive(Clone, Copy)]
pub struct Division {
    piece_length: PieceLength,
    total: u64,
    parts: u64,
    ghost some: { 0 < parts },
}

impl Division {
    /// The division of these files among this many parts, of which there is one at least.
    pub fn of(piece_length: PieceLength, files: &[ListedFile], parts: u64) -> Division
        requires { 0 < parts }
        ensures piece_length { result.piece_length ≡ piece_length }
        ensures total { result.total ≡ total_of (map listed files.now) }
        ensures parts { result.parts ≡ parts }
    {
        let mut total: u64 = 0;
        'files: for file in files {
            total = total.saturating_add(hashed(file.length));
        }
        Division {
            piece_length,
            total,
            parts,
        }
    }

    /// The pieces that this part, counted from 0, has of a file of this length, which has this many
    /// bytes before it. The parts in turn have all pieces of the file, in order. Of a file that is
    /// too long for a torrent there are none. Condition: there is such a part.
    pub fn span(&self, part: u64, before: u64, length: u64) -> Span
        requires { part < self.now.parts }
        ensures { result ≡ span_of self.now.piece_length self.now.total self.now.parts before length
            part }
    {
        Span {
            from: self.first_piece(part, before, length),
            to: self.first_piece(part + 1, before, length),
            ends: self.has_end(part, before, length),
        }
    }

    // The first piece that this part has, or a later one.
    fn first_piece(&self, part: u64, before: u64, length: u64) -> u64
        requires { part ≤ self.now.parts }
        ensures { result ≡ first_piece self.now.piece_length self.now.total self.now.parts before
            length part }
    {
        let count = self.piece_length.pieces(hashed(length));
        if part == self.parts {
            return count;
        }
        let begins = self.start(part).saturating_sub(before);
        count.min(self.piece_length.pieces(begins))
    }

    // Whether this part has the file's last piece, or an empty file.
    fn has_end(&self, part: u64, before: u64, length: u64) -> bool
        requires { part < self.now.parts }
        ensures { result ≡ has_end self.now.piece_length self.now.total self.now.parts before length
            part }
    {
        let parts = self.parts;
        if length == 0 {
            return self.start(part) <= before
                && (part + 1 == parts || before < self.start(part + 1));
        }
        let from = self.first_piece(part, before, length);
        let to = self.first_piece(part + 1, before, length);
        from < to && to == self.piece_length.pieces(hashed(length))
    }

    // Where this part begins among the bytes.
    fn start(&self, part: u64) -> u64
        requires { part ≤ self.now.parts }
        ensures { result ≡ start_of self.now.total self.now.parts part }
    {
        self.total / self.parts * part
    }
}

impl Span {
    /// How many pieces there are.
    pub fn count(self) -> u64
        ensures { result ≡ self.to - self.from }
    {
        self.to.saturating_sub(self.from)
    }

    /// Where the pieces begin in the file, or the largest number of 64 bits if that is less.
    pub fn offset(self, piece_length: PieceLength) -> u64
        ensures { result ≡ offset_of piece_length self }
    {
        self.from.saturating_mul(piece_length.bytes())
    }

    /// How many bytes the pieces have, of a file of this length with this piece length.
    pub fn bytes(self, piece_length: PieceLength, length: u64) -> u64
        ensures { result ≡ bytes_of piece_length length self }
    {
        let to = self
            .to
            .saturating_mul(piece_length.bytes())
            .min(hashed(length));
        to.saturating_sub(self.from.saturating_mul(piece_length.bytes()))
    }
}

/// How many bytes of a file of this length are hashed: none of one that is too long for a torrent.
pub fn hashed(length: u64) -> u64
    ensures { result ≡ hashed length }
{
    if length <= MAX_LENGTH { length } else { 0 }
}
