//! How what is held of several pieces is settled, one settling at a time.

ghost use Rattle.std.specs.Prelude.{◌≡◌, ◌⊎◌, ℕ, ◌+◌, ◌<◌, ◌≤◌, ◌^◌, ◌↔◌, IfOk, IfSome, IfNone, OnErr, IsTrue, IsSome, length, Some, None};
ghost use Rattle.std.specs.FinMap.{get};
ghost use Rattle.session.specs.Pieces.{HasPiece};
ghost use Rattle.holdings.specs.Holdings.{PieceSeen, without_piece};
ghost use Rattle.holdings.specs.Cells.{IsComplete, IsUnsettled};
ghost use Rattle.holdings.specs.Settling.{Settles};
ghost use Rattle.holdings.specs.Next.{with_cells, IsBare, HoldsSome, IsPieceUnsettled, SettlesPiece, IsPieceComplete, AreUnsettled, SettlesNext, LacksMemoryNext, SettlesIn, Forgets};

use crate::holdings::Holdings;
use crate::kept::{is_bare, next_key, withdraw};
use crate::piece_range::Pieces;
use crate::piece_table::Key;
use crate::run::Settled;
use crate::settling::Piece;
use hashtree::NoMemory;
use node_maps::NodeMap;
use session::{HoldsTorrent, SessionOf};

impl Holdings {
    /// Settles what can be settled first of these pieces, in the order of their numbers, and says
    /// what became of it: a run of held blocks is proved and marked, or a block or a whole piece is
    /// false and given up. `None` if nothing is left to settle; then nothing has changed, and these
    /// pieces can be looked at again once more is held or known. A held block whose own leaf is
    /// known is judged by it. A piece whose blocks are all held or known, and whose node is known,
    /// is joined to what is known if its leaves lead to that node, and is false if not. Only held
    /// blocks are marked. Fails if memory was refused for a complete piece; then nothing has
    /// changed but that this piece is passed. Condition: there are more trees than the number of
    /// the pieces' tree.
    pub fn settle_next<T: HoldsTorrent, N: NodeMap>(
        &mut self,
        session: &mut SessionOf<T, N>,
        pieces: &mut Pieces,
    ) -> Result<Option<Settled>, NoMemory>
        requires { pieces.old.tree < length session.old.torrent.trees }
        ensures settled { IfOk result (λ o. IfSome o (λ e. SettlesNext session.old self.old
            pieces.old e session.new self.new pieces.new)) }
        ensures unsettled { IfOk result (λ o. IfNone o (AreUnsettled session.old self.old pieces.old
            pieces.old.end)) }
        ensures same_session { IfOk result (λ o. IfNone o (session.new ≡ session.old)) }
        ensures same_holdings { IfOk result (λ o. IfNone o (self.new ≡ self.old)) }
        ensures same_pieces { IfOk result (λ o. IfNone o (pieces.new ≡ pieces.old)) }
        ensures no_memory { OnErr result (LacksMemoryNext session.old self.old pieces.old
            pieces.new) }
        ensures no_session { OnErr result (session.new ≡ session.old) }
        ensures no_holdings { OnErr result (self.new ≡ self.old) }
    {
        let (tree, end) = (pieces.tree, pieces.end);
        let mut from = pieces.from;
        'pieces: while let Some(first) = next_key(&self.pieces, tree, from, end) {
            match self.settle_piece(session, tree, first) {
                Ok(None) => from = first + 1,
                Ok(Some(settled)) => {
                    pieces.from = first;
                    return Ok(Some(settled));
                }
                Err(refused) => {
                    pieces.from = first + 1;
                    return Err(refused);
                }
            }
        }
        Ok(None)
    }

    // Settles what can be settled first of one piece, if it is held.
    fn settle_piece<T: HoldsTorrent, N: NodeMap>(
        &mut self,
        session: &mut SessionOf<T, N>,
        tree: usize,
        first: u64,
    ) -> Result<Option<Settled>, NoMemory>
        requires { tree < length session.old.torrent.trees }
        ensures settled { IfOk result (λ o. IfSome o (λ e. SettlesPiece session.old self.old tree
            first e session.new self.new)) }
        ensures unsettled { IfOk result (λ o. IfNone o (IsPieceUnsettled session.old self.old tree
            first)) }
        ensures same_session { IfOk result (λ o. IfNone o (session.new ≡ session.old)) }
        ensures same_holdings { IfOk result (λ o. IfNone o (self.new ≡ self.old)) }
        ensures no_memory { OnErr result (IsPieceComplete session.old self.old tree first) }
        ensures no_session { OnErr result (session.new ≡ session.old) }
        ensures no_holdings { OnErr result (self.new ≡ self.old) }
    {
        let Some(size) = self.size_of((tree, first)) else {
            return Ok(None);
        };
        if !is_piece(session, tree, first, size) {
            return Ok(None);
        }
        let settled = self.settle_held(session, Piece { tree, first, size })?;
        if settled.is_some() {
            self.forget_bare((tree, first));
        }
        Ok(settled)
    }

    // Settles what can be settled first of a held piece, which may be bare then.
    fn settle_held<T: HoldsTorrent, N: NodeMap>(
        &mut self,
        session: &mut SessionOf<T, N>,
        piece: Piece,
    ) -> Result<Option<Settled>, NoMemory>
        requires tree { piece.tree < length session.old.torrent.trees }
        requires held { (x : PieceSeen) × (get self.old.pieces (piece.tree, piece.first) ≡ Some x)
            × (length x.cells ≡ piece.size) }
        requires piece { HasPiece session.old piece.tree piece.first piece.size }
        ensures settled { IfOk result (λ o. IfSome o (λ e. SettlesIn session.old self.old
            (piece.tree, piece.first) e session.new self.new)) }
        ensures unsettled { IfOk result (λ o. IfNone o (IsPieceUnsettled session.old self.old
            piece.tree piece.first)) }
        ensures same_session { IfOk result (λ o. IfNone o (session.new ≡ session.old)) }
        ensures same_holdings { IfOk result (λ o. IfNone o (self.new ≡ self.old)) }
        ensures no_memory { OnErr result (IsPieceComplete session.old self.old piece.tree
            piece.first) }
        ensures no_session { OnErr result (session.new ≡ session.old) }
        ensures no_holdings { OnErr result (self.new ≡ self.old) }
    {
        self.pieces.settle_row(self.alloc, session, piece)
    }

    // How many blocks a held piece has.
    fn size_of(&self, key: Key) -> Option<usize>
        ensures some { IfSome result (λ size. (x : PieceSeen) × (get self.now.pieces key ≡ Some x)
            × (length x.cells ≡ size)) }
        ensures none { IfNone result (get self.now.pieces key ≡ None) }
    {
        self.pieces.size_of(key)
    }

    // Forgets a piece of which nothing is held any more.
    fn forget_bare(&mut self, key: Key)
        ensures { Forgets self.old key self.new }
    {
        match is_bare(&self.pieces, key) {
            None => {}
            Some(newest) => {
                withdraw(&mut self.pieces, &mut self.ages, key, newest);
            }
        }
    }
}

// Whether this many blocks of a tree, from one on, are a piece.
fn is_piece<T: HoldsTorrent, N: NodeMap>(
    session: &SessionOf<T, N>,
    tree: usize,
    first: u64,
    size: usize,
) -> bool
    requires { tree < length session.now.torrent.trees }
    ensures { IsTrue result ↔ HasPiece session.now tree first size }
{
    let blocks = session.blocks(tree);
    let width = 1u64 << session.piece_span(tree);
    first % width == 0 && first < blocks && size as u64 == width.min(blocks - first)
}
