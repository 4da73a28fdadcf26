//! What kind of torrent is made.
ghost use Rattle.std.specs.Prelude.{◌≡◌, SomeIff, true};
ghost use Rattle.opening.specs.PieceLayers.{piece_layer};
ghost use Rattle.pieces.specs.Pieces.{IsPieceLength};
ghost use Rattle.passes.specs.declared.cuts_wanted.CutsWanted.TheVariants as cuts;

use hashtree::Shape;
use passes::{CutsWanted, HeldFiles};
use pieces::{PieceBuffer, PieceLength, fits_in_lanes};
use std::alloc::Global;

/// What kind of torrent is made: of this piece length, and whether it is a hybrid.
#[derive(Drop)]
pub struct TorrentKind {
    /// The piece length.
    pub piece_length: PieceLength,
    /// Whether it is a hybrid.
    pub hybrid: bool,
}

impl TorrentKind {
    /// The kind of this piece length in bytes; `None` unless it is one.
    pub fn new(piece_length: u64, hybrid: bool) -> Option<TorrentKind>
        ensures { SomeIff result (IsPieceLength piece_length)
            (record { piece_length = piece_length; hybrid = hybrid }) }
    {
        let piece_length = PieceLength::new(piece_length)?;
        Some(TorrentKind {
            piece_length,
            hybrid,
        })
    }

    /// Its piece length is one, as its type says.
    pub fn recall_legal(&self)
        ensures { IsPieceLength self.now.piece_length }
    {
        self.piece_length.bytes();
    }

    /// The buffer through which files are read: of a hybrid, for a piece in each lane.
    pub fn buffer(&self, alloc: Global) -> PieceBuffer {
        if self.hybrid {
            PieceBuffer::of_pieces(alloc, self.piece_length.bytes())
        } else {
            PieceBuffer::of_blocks(alloc)
        }
    }

    /// What this many files are held in, to be hashed side by side.
    pub(crate) fn held(&self, alloc: Global, files: usize) -> HeldFiles
        ensures piece_length { result.cutting.piece_length ≡ self.now.piece_length }
        ensures both { self.now.hybrid ≡ true → result.cutting.wanted ≡ cuts.Both }
    {
        let wanted = if self.hybrid {
            CutsWanted::Both
        } else {
            CutsWanted::Nothing
        };
        HeldFiles::new(alloc, files, self.piece_length, wanted)
    }

    /// Whether its version 1 pieces are too long for that buffer. Then it helps to know how long a
    /// file is, unless a piece has more than 16 MiB.
    pub(crate) fn has_long_pieces(&self) -> bool {
        self.hybrid && !fits_in_lanes(self.piece_length.bytes())
    }

    /// The layer in which one hash covers a piece.
    pub fn piece_layer(&self) -> u32
        ensures { result ≡ piece_layer self.now.piece_length }
    {
        Shape::of(self.piece_length.bytes()).unwrap().height()
    }
}
