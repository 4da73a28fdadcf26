//! Whole pieces that a session takes.
ghost use Rattle.std.specs.Prelude.{◌<◌};

use crate::again::{name_refused, new_again, print_changed};
use crate::state::{are_alike, print_state};
use opening::Torrent;
use session::{NoMemory, NodeMap, PieceRefusal, Session};
use std::alloc::Global;
use std::io;

// A torrent, and its content cut into pieces.
#[derive(Drop)]
struct Pieces<'p> {
    torrent: &'p Torrent<'p>,
    content: &'p [u8],
    length: usize,
}

/// Gives the pieces of the content to a new session that knows the piece layers, and prints what
/// each came to and the session's state.
pub(crate) fn take_pieces<N: NodeMap>(
    rt: &HostRuntime,
    torrent: &Torrent<'_>,
    content: &[u8],
) -> io::Result<()> {
    let length = usize::try_from(torrent.piece_length()).unwrap_or(1).max(1);
    let pieces = Pieces {
        torrent,
        content,
        length,
    };
    take_each::<N>(rt, &pieces)
}

fn take_each<N: NodeMap>(rt: &HostRuntime, pieces: &Pieces<'_>) -> io::Result<()>
    requires { 0 < pieces.now.length }
{
    let mut session: Session<'_, N> = new_again(rt, pieces.torrent, true)?;
    for (number, piece) in pieces.content.chunks(pieces.length).enumerate() {
        take_again(rt, &mut session, pieces, number, piece)?;
        print_state(rt, &session)?;
    }
    Ok(())
}

fn take<N: NodeMap>(
    session: &mut Session<'_, N>,
    number: usize,
    piece: &[u8],
) -> Result<(usize, u64), PieceRefusal> {
    session.take_piece(u32::try_from(number).unwrap_or(u32::MAX), piece)
}

// Takes the piece of this number, again if memory was refused; and once more, when it is known and
// takes no memory.
fn take_again<N: NodeMap>(
    rt: &HostRuntime,
    session: &mut Session<'_, N>,
    pieces: &Pieces<'_>,
    number: usize,
    piece: &[u8],
) -> io::Result<()>
    requires { 0 < pieces.now.length }
{
    let mut taken = take(session, number, piece);
    if taken == Err(PieceRefusal::NoMemory) {
        name_refused(rt, "take_piece")?;
        if !is_after::<N>(rt.alloc(), session, pieces, number)? {
            print_changed(rt, "take_piece")?;
        }
        taken = take(session, number, piece);
    }
    println!(rt; "{taken:?}")?;
    println!(rt; "{:?}", take(session, number, piece))
}

// Whether the session is as one that took the first `count` pieces, and no others.
fn is_after<N: NodeMap>(
    alloc: Global,
    session: &Session<'_, N>,
    pieces: &Pieces<'_>,
    count: usize,
) -> Result<bool, NoMemory>
    requires { 0 < pieces.now.length }
{
    let mut other: Session<'_, N> = Session::new(alloc, pieces.torrent, true)?;
    for (number, piece) in pieces.content.chunks(pieces.length).take(count).enumerate() {
        let _ = take(&mut other, number, piece);
    }
    are_alike(session, &other, &[])
}
