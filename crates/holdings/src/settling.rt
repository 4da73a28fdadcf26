//! How what is held of one piece is settled: marked, or given up.

ghost use Rattle.std.specs.Prelude.{ℕ, ◌≡◌, ◌+◌, ◌^◌, ◌<◌, ◌≤◌, ◌↔◌, IfOk, IfSome, IfNone, IsSome, IsTrue, OnErr, length, replicate, None, Some};
ghost use Rattle.std.specs.Bool.{OnTrue, OnFalse};
ghost use Rattle.holdings.specs.Cells.{digest_in, known_at, tried_leaf, AreUnknown, IsComplete, IsUnsettled, IsNodeKnown};
ghost use Rattle.holdings.specs.Settling.{AreTried, IsBlockMarked, AreBlocksMarked, CannotMark, IsBlockJudged, IsTaken, Settles, run_of};
ghost use Rattle.session.specs.Pieces.{HasPiece};

use crate::run::{Run, Settled};
use hashtree::{Hash, NoMemory};
use node_maps::NodeMap;
use partial_tree::PieceRefusal;
use session::{HoldsTorrent, SessionOf};
use std::alloc::Global;

/// A piece: its tree, its first block there, and how many blocks it has.
#[derive(Clone, Copy)]
pub(crate) struct Piece {
    pub(crate) tree: usize,
    pub(crate) first: u64,
    pub(crate) size: usize,
}

/// Settles what can be settled first of one piece: a run of held blocks whose leaves are known is
/// marked, or one of them is given up; or all of a complete piece is joined to what is known, and
/// its first run marked, or it is given up. `None` if nothing can be settled. Fails only if memory
/// was refused for a complete piece, and then nothing has changed.
pub(crate) fn settle<T: HoldsTorrent, N: NodeMap>(
    alloc: Global,
    cells: &mut [Option<Hash>],
    session: &mut SessionOf<T, N>,
    piece: Piece,
) -> Result<Option<Settled>, NoMemory>
    requires tree { piece.tree < length session.old.torrent.trees }
    requires size { piece.size ≡ length cells.old }
    requires few { piece.first + piece.size < 2 ^ 64 }
    requires piece { HasPiece session.old piece.tree piece.first piece.size }
    ensures settled { IfOk result (λ o. IfSome o (λ e. Settles session.old piece.tree piece.first
        piece.size cells.old e session.new cells.new)) }
    ensures unsettled { IfOk result (λ o. IfNone o (IsUnsettled session.old piece.tree piece.first
        piece.size cells.old)) }
    ensures same_session { IfOk result (λ o. IfNone o (session.new ≡ session.old)) }
    ensures same_cells { IfOk result (λ o. IfNone o (cells.new ≡ cells.old)) }
    ensures complete { OnErr result (IsComplete session.old piece.tree piece.first piece.size
        cells.old) }
    ensures no_session { OnErr result (session.new ≡ session.old) }
    ensures no_cells { OnErr result (cells.new ≡ cells.old) }
{
    if let Some(known) = first_known(cells, session, piece) {
        return Ok(Some(judge(cells, session, piece, known)));
    }
    let Some(held) = first_held(cells) else {
        return Ok(None);
    };
    if !knows_node(session, piece) || !has_all(cells, session, piece) {
        return Ok(None);
    }
    match join(alloc, cells, session, piece)? {
        true => Ok(Some(judge(cells, session, piece, held))),
        false => {
            clear(cells);
            Ok(Some(Settled::False(run(piece, 0, piece.size - 1))))
        }
    }
}

// Joins the leaves of a complete piece to what is known, and returns true; or false if they lead to
// another node than the known one.
fn join<T: HoldsTorrent, N: NodeMap>(
    alloc: Global,
    cells: &[Option<Hash>],
    session: &mut SessionOf<T, N>,
    piece: Piece,
) -> Result<bool, NoMemory>
    requires tree { piece.tree < length session.old.torrent.trees }
    requires size { piece.size ≡ length cells.now }
    requires few { piece.first + piece.size < 2 ^ 64 }
    requires piece { HasPiece session.old piece.tree piece.first piece.size }
    requires complete { IsComplete session.old piece.tree piece.first piece.size cells.now }
    ensures taken { IfOk result (λ b. IsTaken session.old piece.tree piece.first piece.size
        cells.now b session.new) }
    ensures unchanged { OnErr result (session.new ≡ session.old) }
{
    let leaves = leaves_of(alloc, cells, session, piece)?;
    match session.take_leaves(piece.tree, piece.first, &leaves) {
        Ok(_) => Ok(true),
        Err(PieceRefusal::NoMemory) => Err(NoMemory),
        Err(_) => Ok(false),
    }
}

// Judges a held block by its known leaf: marks it and those that follow, or gives it up.
fn judge<T: HoldsTorrent, N: NodeMap>(
    cells: &mut [Option<Hash>],
    session: &mut SessionOf<T, N>,
    piece: Piece,
    from: usize,
) -> Settled
    requires tree { piece.tree < length session.old.torrent.trees }
    requires from { from < piece.size }
    requires size { piece.size ≡ length cells.old }
    requires few { piece.first + piece.size < 2 ^ 64 }
    ensures { IsBlockJudged session.old piece.tree piece.first piece.size cells.old from result
        session.new cells.new }
{
    let count = mark_from(cells, session, piece, from);
    if count == 0 {
        cells[from] = None;
        return Settled::False(run(piece, from, from));
    }
    Settled::Proved(run(piece, from, from + count - 1))
}

// Marks the held blocks of a piece from one on, while their digests are the known leaves, and
// returns how many these are.
fn mark_from<T: HoldsTorrent, N: NodeMap>(
    cells: &mut [Option<Hash>],
    session: &mut SessionOf<T, N>,
    piece: Piece,
    from: usize,
) -> usize
    requires tree { piece.tree < length session.old.torrent.trees }
    requires from { from ≤ piece.size }
    requires size { piece.size ≡ length cells.old }
    requires few { piece.first + piece.size < 2 ^ 64 }
    ensures inside { from + result ≤ piece.size }
    ensures marked { AreBlocksMarked session.old piece.tree piece.first cells.old from result
        session.new cells.new }
    ensures all { from + result < piece.size
        → CannotMark session.new piece.tree piece.first cells.new (from + result) }
{
    'each: for count in 0..piece.size - from {
        if !mark_held(cells, session, piece, from + count) {
            return count;
        }
    }
    piece.size - from
}

// Marks the leaf of a block of a piece, and holds nothing more of it, if the digest that is held is
// its known leaf.
fn mark_held<T: HoldsTorrent, N: NodeMap>(
    cells: &mut [Option<Hash>],
    session: &mut SessionOf<T, N>,
    piece: Piece,
    block: usize,
) -> bool
    requires tree { piece.tree < length session.old.torrent.trees }
    requires block { block < length cells.old }
    requires few { piece.first + block < 2 ^ 64 }
    ensures marked { OnTrue result (IsBlockMarked session.old piece.tree piece.first cells.old block
        session.new cells.new) }
    ensures other { OnFalse result
        (CannotMark session.old piece.tree piece.first cells.old block) }
    ensures same_session { OnFalse result (session.new ≡ session.old) }
    ensures same_cells { OnFalse result (cells.new ≡ cells.old) }
    ensures torrent { session.new.torrent ≡ session.old.torrent }
{
    let Some(digest) = cells[block] else {
        return false;
    };
    if !session.mark_leaf(piece.tree, piece.first + block as u64, &digest) {
        return false;
    }
    cells[block] = None;
    true
}

// The leaves that a complete piece is tried with.
fn leaves_of<T: HoldsTorrent, N: NodeMap>(
    alloc: Global,
    cells: &[Option<Hash>],
    session: &SessionOf<T, N>,
    piece: Piece,
) -> Result<Vec<Hash>, NoMemory>
    requires tree { piece.tree < length session.now.torrent.trees }
    requires size { piece.size ≡ length cells.now }
    requires few { piece.first + piece.size < 2 ^ 64 }
    requires complete { IsComplete session.now piece.tree piece.first piece.size cells.now }
    ensures { IfOk result (λ leaves. AreTried session.now piece.tree piece.first piece.size
        cells.now leaves.items) }
{
    let mut leaves = Vec::with_capacity(alloc, piece.size)?;
    'each: for block in 0..piece.size {
        leaves.push_reserved(tried(cells, session, piece, block).unwrap());
    }
    Ok(leaves)
}

// The leaf that a block of a piece is tried with: the digest that is held, or else the known one.
fn tried<T: HoldsTorrent, N: NodeMap>(
    cells: &[Option<Hash>],
    session: &SessionOf<T, N>,
    piece: Piece,
    block: usize,
) -> Option<Hash>
    requires tree { piece.tree < length session.now.torrent.trees }
    requires block { block < length cells.now }
    requires few { piece.first + block < 2 ^ 64 }
    ensures { result ≡ tried_leaf session.now piece.tree piece.first cells.now block }
{
    match cells[block] {
        Some(digest) => Some(digest),
        None => leaf_at(session, piece, block),
    }
}

// Whether each block of a piece is held or known. One that is missing is most often near the end,
// since blocks mostly come in order.
fn has_all<T: HoldsTorrent, N: NodeMap>(
    cells: &[Option<Hash>],
    session: &SessionOf<T, N>,
    piece: Piece,
) -> bool
    requires tree { piece.tree < length session.now.torrent.trees }
    requires size { piece.size ≡ length cells.now }
    requires few { piece.first + piece.size < 2 ^ 64 }
    ensures { IsTrue result ↔ ((j : ℕ) → j < piece.size
        → IsSome (tried_leaf session.now piece.tree piece.first cells.now j)) }
{
    'each: for behind in 0..piece.size {
        if tried(cells, session, piece, piece.size - 1 - behind).is_none() {
            return false;
        }
    }
    true
}

// Whether the hash of the node that covers a piece is known.
fn knows_node<T: HoldsTorrent, N: NodeMap>(session: &SessionOf<T, N>, piece: Piece) -> bool
    requires { piece.tree < length session.now.torrent.trees }
    ensures { IsTrue result ↔ IsNodeKnown session.now piece.tree piece.first }
{
    let span = session.piece_span(piece.tree);
    session
        .hash_at(piece.tree, span, piece.first >> span)
        .is_some()
}

// The first held block of a piece whose leaf is known.
fn first_known<T: HoldsTorrent, N: NodeMap>(
    cells: &[Option<Hash>],
    session: &SessionOf<T, N>,
    piece: Piece,
) -> Option<usize>
    requires tree { piece.tree < length session.now.torrent.trees }
    requires size { piece.size ≡ length cells.now }
    requires few { piece.first + piece.size < 2 ^ 64 }
    ensures inside { IfSome result (λ j. j < piece.size) }
    ensures held { IfSome result (λ j. IsSome (digest_in cells.now j)) }
    ensures known { IfSome result (λ j.
        IsSome (known_at session.now piece.tree 0 (piece.first + j))) }
    ensures first { IfSome result (λ j.
        AreUnknown session.now piece.tree piece.first j cells.now) }
    ensures none { IfNone result
        (AreUnknown session.now piece.tree piece.first piece.size cells.now) }
{
    'each: for block in 0..piece.size {
        if cells[block].is_some() && leaf_at(session, piece, block).is_some() {
            return Some(block);
        }
    }
    None
}

// The known leaf of a block of a piece.
fn leaf_at<T: HoldsTorrent, N: NodeMap>(
    session: &SessionOf<T, N>,
    piece: Piece,
    block: usize,
) -> Option<Hash>
    requires tree { piece.tree < length session.now.torrent.trees }
    requires few { piece.first + block < 2 ^ 64 }
    ensures { result ≡ known_at session.now piece.tree 0 (piece.first + block) }
{
    session.hash_at(piece.tree, 0, piece.first + block as u64)
}

/// The first block of a piece of which something is held.
pub(crate) fn first_held(cells: &[Option<Hash>]) -> Option<usize>
    ensures inside { IfSome result (λ j. j < length cells.now) }
    ensures held { IfSome result (λ j. IsSome (digest_in cells.now j)) }
    ensures first { IfSome result (λ j. (i : ℕ) → i < j → digest_in cells.now i ≡ None) }
    ensures none { IfNone result
        ((i : ℕ) → i < length cells.now → digest_in cells.now i ≡ None) }
{
    'each: for block in 0..cells.len() {
        if cells[block].is_some() {
            return Some(block);
        }
    }
    None
}

/// Gives up all that is held of a piece.
pub(crate) fn clear(cells: &mut [Option<Hash>])
    ensures { cells.new ≡ replicate (length cells.old) None }
{
    'each: for block in 0..cells.len() {
        cells[block] = None;
    }
}

// Blocks of a piece, as blocks of its tree.
fn run(piece: Piece, from: usize, last: usize) -> Run
    requires last { piece.first + last < 2 ^ 64 }
    requires from { piece.first + from < 2 ^ 64 }
    ensures { result ≡ run_of piece.tree piece.first from last }
{
    Run {
        tree: piece.tree,
        first: piece.first + from as u64,
        last: piece.first + last as u64,
    }
}
