//! A whole piece goes to a session.
ghost use Rattle.std.specs.Prelude.{IfOk, IfErr, ◌≡◌};
ghost use Rattle.session.specs.Pieces.{TakesTruePiece};
ghost use Rattle.session.specs.SafeStep.{KeepsKnown};
ghost use Rattle.uses.specs.WholePieces.{IsPieceKept};

use session::{NodeMap, PieceRefusal, Session};

/// Takes a whole piece that came from strangers, and returns its file and its first block there:
/// after `Ok` the bytes have the piece's size and each block is marked; each is the block at its
/// place of every file that fits, or a collision; a true piece whose node is known is taken, or
/// `NoMemory`, or a collision; known hashes keep their value, after an error too. A refusal leaves
/// the session as before. A collision is two different inputs with one SHA-256 digest, which the
/// contract gives.
pub fn keep_piece<N: NodeMap>(
    session: &mut Session<'_, N>,
    index: u32,
    piece: &[u8],
) -> Result<(usize, u64), PieceRefusal>
    ensures kept { IfOk result (λ p.
        IsPieceKept session.old index piece.now p.0 p.1 session.new) }
    ensures true_is_taken { TakesTruePiece session.old index piece.now result }
    ensures stay { KeepsKnown session.old session.new }
    ensures unchanged { IfErr result (λ _. session.new ≡ session.old) }
{
    session.take_piece(index, piece)
}
