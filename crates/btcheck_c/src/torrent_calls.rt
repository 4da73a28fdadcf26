//! The calls that read what a torrent has as a whole.

ghost use Rattle.std.specs.Prelude.{◌≡◌, ◌≢◌};
ghost use Rattle.btcheck_c.specs.Torrents.{WritesPieceLength, WritesPieces, WritesName, AnswersIfHybrid};
ghost use Rattle.btcheck_c.specs.Holds.{Through};
ghost use Rattle.btcheck_c.specs.declared.thing.Kind.TheVariants as kind;

use crate::handle::Handle;
use crate::lending::lend;
use crate::thing::Kind;
use c_layouts::path_text::write_path;
use c_layouts::status::{DONE, WRONG_HANDLE, status_of_answer};
use c_layouts::torrent_info::count_pieces;
use node_maps::Paged;
use session::OwnedSession;
use std::alloc::Global;

fn piece_length(session: &OwnedSession<Paged>, length: &mut u64) -> u32
    ensures done { WritesPieceLength length.new (kind.Session session.now) result
        (kind.Session session.now) }
    ensures unwritten { result ≢ 0 → length.new ≡ length.old }
{
    *length = session.torrent().piece_length();
    DONE
}

fn pieces(session: &OwnedSession<Paged>, pieces: &mut u64) -> u32
    ensures done { WritesPieces pieces.new (kind.Session session.now) result
        (kind.Session session.now) }
    ensures unwritten { result ≢ 0 → pieces.new ≡ pieces.old }
{
    *pieces = count_pieces(session.torrent());
    DONE
}

fn name(session: &OwnedSession<Paged>, room: &mut [u8], length: &mut u64) -> u32
    ensures done { WritesName room.old room.new length.new (kind.Session session.now) result
        (kind.Session session.now) }
    ensures unwritten { result ≢ 0 → (room.new ≡ room.old)
        × (result ≢ 7 → length.new ≡ length.old) }
{
    write_path(&[session.torrent().name()], room, length)
}

fn is_hybrid(session: &OwnedSession<Paged>) -> u32
    ensures { AnswersIfHybrid (kind.Session session.now) result (kind.Session session.now) }
{
    status_of_answer(session.torrent().v1().is_some())
}

/// Writes how many bytes a piece has. Status 1: the handle holds no session. The session is as
/// before.
#[unsafe(no_mangle)]
pub extern "C" fn btcheck_session_piece_length(
    alloc: Global,
    handle: &mut Handle,
    length: &mut u64,
) -> u32
    ensures done { Through (WritesPieceLength length.new) handle.old.slot.held result
        handle.new.slot.held }
    ensures unwritten { result ≢ 0 → length.new ≡ length.old }
{
    lend!(handle, alloc, Session(session) => piece_length(session, length))
}

/// Writes how many pieces the files have together: pieces have the numbers below it. Status 1: the
/// handle holds no session. The session is as before.
#[unsafe(no_mangle)]
pub extern "C" fn btcheck_session_pieces(alloc: Global, handle: &mut Handle, count: &mut u64) -> u32
    ensures done { Through (WritesPieces count.new) handle.old.slot.held result
        handle.new.slot.held }
    ensures unwritten { result ≢ 0 → count.new ≡ count.old }
{
    lend!(handle, alloc, Session(session) => pieces(session, count))
}

/// Writes the torrent's name to the front of the room, and how many bytes it has. Status 1: the
/// handle holds no session. Status 7: the room has fewer bytes than the name, and stays as it is.
/// The session is as before.
#[unsafe(no_mangle)]
pub extern "C" fn btcheck_session_name(
    alloc: Global,
    handle: &mut Handle,
    room: &mut [u8],
    length: &mut u64,
) -> u32
    ensures done { Through (WritesName room.old room.new length.new) handle.old.slot.held result
        handle.new.slot.held }
    ensures unwritten { result ≢ 0 → (room.new ≡ room.old)
        × (result ≢ 7 → length.new ≡ length.old) }
{
    lend!(handle, alloc, Session(session) => name(session, room, length))
}

/// Whether the torrent is a hybrid, so that clients of version 1 can use it too. Status 1: the
/// handle holds no session. Status 6: it is none. The session is as before.
#[unsafe(no_mangle)]
pub extern "C" fn btcheck_session_is_hybrid(alloc: Global, handle: &mut Handle) -> u32
    ensures { Through AnswersIfHybrid handle.old.slot.held result handle.new.slot.held }
{
    lend!(handle, alloc, Session(session) => is_hybrid(session))
}
