//! The calls on places: where a piece lies in its file, and where a file and its bytes lie in
//! pieces.

ghost use Rattle.std.specs.Prelude.{◌≡◌, ◌≢◌};
ghost use Rattle.btcheck_c.specs.PlaceCalls.{WritesFilePieces, WritesPiece, WritesRange};
ghost use Rattle.btcheck_c.specs.Holds.{Through};
ghost use Rattle.btcheck_c.specs.declared.thing.Kind.TheVariants as kind;

use crate::handle::Handle;
use crate::lending::lend;
use crate::thing::Kind;
use c_layouts::piece_info::{PieceInfo, piece_info};
use c_layouts::range_info::{RangeInfo, range_info};
use c_layouts::status::{DONE, NO_SUCH, WRONG_HANDLE};
use c_layouts::torrent_info::pieces_of_file;
use node_maps::Paged;
use session::OwnedSession;
use std::alloc::Global;

fn piece(session: &OwnedSession<Paged>, index: u32, out: &mut PieceInfo) -> u32
    ensures done { WritesPiece index out.new (kind.Session session.now) result
        (kind.Session session.now) }
    ensures unwritten { result ≢ 0 → out.new ≡ out.old }
{
    match piece_info(session.torrent(), index) {
        None => NO_SUCH,
        Some(info) => {
            *out = info;
            DONE
        }
    }
}

fn file_pieces(
    session: &OwnedSession<Paged>,
    number: usize,
    first: &mut u64,
    count: &mut u64,
) -> u32
    ensures done { WritesFilePieces number first.new count.new (kind.Session session.now) result
        (kind.Session session.now) }
    ensures unwritten { result ≢ 0 → (first.new ≡ first.old) × (count.new ≡ count.old) }
{
    match pieces_of_file(session.torrent(), number) {
        None => NO_SUCH,
        Some((from, pieces)) => {
            *first = from;
            *count = pieces;
            DONE
        }
    }
}

fn map_file(
    session: &OwnedSession<Paged>,
    number: usize,
    offset: u64,
    length: u64,
    out: &mut RangeInfo,
) -> u32
    ensures done { WritesRange number offset length out.new (kind.Session session.now) result
        (kind.Session session.now) }
    ensures unwritten { result ≢ 0 → out.new ≡ out.old }
{
    match range_info(session.torrent(), number, offset, length) {
        None => NO_SUCH,
        Some(info) => {
            *out = info;
            DONE
        }
    }
}

/// Writes how many bytes a piece has, its file, and its first block and its first byte there.
/// Status 1: the handle holds no session. Status 5: the torrent has no such piece. The session is
/// as before.
#[unsafe(no_mangle)]
pub extern "C" fn btcheck_session_piece(
    alloc: Global,
    handle: &mut Handle,
    index: u32,
    out: &mut PieceInfo,
) -> u32
    ensures done { Through (WritesPiece index out.new) handle.old.slot.held result
        handle.new.slot.held }
    ensures unwritten { result ≢ 0 → out.new ≡ out.old }
{
    lend!(handle, alloc, Session(session) => piece(session, index, out))
}

/// Writes the first piece of a file, and how many pieces it has; an empty file has none. Status 1:
/// the handle holds no session. Status 5: there is no such file. The session is as before.
#[unsafe(no_mangle)]
pub extern "C" fn btcheck_session_file_pieces(
    alloc: Global,
    handle: &mut Handle,
    number: usize,
    first: &mut u64,
    count: &mut u64,
) -> u32
    ensures done { Through (WritesFilePieces number first.new count.new) handle.old.slot.held result
        handle.new.slot.held }
    ensures unwritten { result ≢ 0 → (first.new ≡ first.old) × (count.new ≡ count.old) }
{
    lend!(handle, alloc, Session(session) => file_pieces(session, number, first, count))
}

/// Writes where bytes of a file lie, from an offset on: the piece, where they begin in it, and how
/// many they are, at most `length` and none past the file's end. They may go on in the pieces
/// behind it. Status 1: the handle holds no session. Status 5: there is no such file, or it has no
/// byte at the offset. The session is as before.
#[unsafe(no_mangle)]
pub extern "C" fn btcheck_session_map_file(
    alloc: Global,
    handle: &mut Handle,
    number: usize,
    offset: u64,
    length: u64,
    out: &mut RangeInfo,
) -> u32
    ensures done { Through (WritesRange number offset length out.new) handle.old.slot.held result
        handle.new.slot.held }
    ensures unwritten { result ≢ 0 → out.new ≡ out.old }
{
    lend!(handle, alloc, Session(session) => map_file(session, number, offset, length, out))
}
