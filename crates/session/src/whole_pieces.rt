//! How a session takes a whole piece.

ghost use Rattle.std.specs.Prelude.{◌≡◌, ◌%◌, ◌^◌, IfOk, IfErr, Some, slice_get};
ghost use Rattle.opening.specs.Description.{FileEntry};
ghost use Rattle.opening.specs.PieceLayers.{piece_layer};
ghost use Rattle.session.specs.Layouts.{HasBlock};
ghost use Rattle.session.specs.Pieces.{IsTakenPiece, IsPieceRefused, IsTakenFrom, IsRefusedFrom, ArePieceBlocks, HasFileEndPads, TakesTruePiece, piece_size};
ghost use Rattle.session.specs.Rounds.{HasNoMoreGaps};
ghost use Rattle.session.specs.SafeStep.{KeepsKnown};

use crate::session::SessionOf;
use crate::torrent_holder::HoldsTorrent;
use hashtree::BLOCK_LENGTH;
use node_maps::NodeMap;
use partial_tree::PieceRefusal;

impl<T: HoldsTorrent, N: NodeMap> SessionOf<T, N> {
    /// Takes the bytes of one whole piece; the file's last one may be shorter. Returns the file and
    /// its first block of the piece. Each leaf of the piece is known then, and marked, and each of
    /// its blocks is that block of every file with the tree's length and root, or two inputs with
    /// one digest are named. With a file's last piece the pads beside its end become known, so that
    /// a session which has all pieces answers for each block of the file. What is known stays
    /// known, and no tree has more gaps; a true piece whose node is known is taken, unless memory
    /// is refused or a collision is named. A refusal leaves the session unchanged.
    pub fn take_piece(&mut self, index: u32, bytes: &[u8]) -> Result<(usize, u64), PieceRefusal>
        ensures taken { IfOk result
            (λ p. IsTakenPiece self.old index bytes.now p.0 p.1 self.new) }
        ensures refused { IfErr result (λ r. IsPieceRefused self.old index bytes.now r
            × (self.new ≡ self.old)) }
        ensures taken_are_the_blocks { IfOk result
            (λ p. ArePieceBlocks self.new bytes.now p.0 p.1) }
        ensures end_pads { IfOk result (λ p. HasFileEndPads self.new p.0 p.1) }
        ensures keeps_known { KeepsKnown self.old self.new }
        ensures gaps { HasNoMoreGaps self.old self.new }
        ensures takes_true_piece { TakesTruePiece self.old index bytes.now result }
    {
        self.recall_closed_trees();
        let taken = self.join_piece(index, bytes);
        self.recall_closed_trees();
        taken
    }

    // Apart from `take_piece`, so that what follows of closed trees is proved of one result.
    fn join_piece(&mut self, index: u32, bytes: &[u8]) -> Result<(usize, u64), PieceRefusal>
        ensures taken { IfOk result
            (λ p. IsTakenPiece self.old index bytes.now p.0 p.1 self.new) }
        ensures refused { IfErr result (λ r. IsPieceRefused self.old index bytes.now r
            × (self.new ≡ self.old)) }
    {
        let Some((file, first)) = self.block_at(index, 0) else {
            return Err(PieceRefusal::BadPlace);
        };
        match self.take_from(file, first, bytes) {
            Ok(()) => Ok((file, first)),
            Err(refusal) => Err(refusal),
        }
    }

    // Takes the bytes of the piece that begins with a block of a file.
    fn take_from(&mut self, file: usize, first: u64, bytes: &[u8]) -> Result<(), PieceRefusal>
        requires block { HasBlock self.old.torrent file first }
        requires aligned { first % 2 ^ piece_layer self.old.torrent.piece_length ≡ 0 }
        ensures taken { IfOk result (λ _. IsTakenFrom self.old file first bytes.now self.new) }
        ensures refused { IfErr result (λ r. IsRefusedFrom self.old file first bytes.now r
            × (self.new ≡ self.old)) }
    {
        let tree = self.tree_of_block(file, first);
        if bytes.len() as u64 != self.size_of_piece(file, first) {
            return Err(PieceRefusal::BadSize);
        }
        let span = self.piece_span(tree);
        self.trees[tree].take_piece(first, span, bytes)
    }

    // How many bytes the piece has that begins with a block of a file.
    fn size_of_piece(&self, file: usize, first: u64) -> u64
        requires { HasBlock self.now.torrent file first }
        ensures { (f : FileEntry) → slice_get self.now.torrent.files file ≡ Some f
            → result ≡ piece_size self.now.torrent.piece_length f.length first }
    {
        let torrent = self.torrent.lend();
        let length = torrent.files()[file].length;
        torrent.piece_length().min(length - BLOCK_LENGTH * first)
    }
}
