//! The calls on what is marked: the blocks of a file, and the pieces as a bitfield.

ghost use Rattle.std.specs.Prelude.{◌≡◌, ◌≢◌};
ghost use Rattle.btcheck_c.specs.MarkCalls.{WritesBitfield, WritesFileCounts};
ghost use Rattle.btcheck_c.specs.Holds.{Through};
ghost use Rattle.btcheck_c.specs.declared.thing.Kind.TheVariants as kind;

use crate::handle::Handle;
use crate::lending::lend;
use crate::thing::Kind;
use c_layouts::bitfield::write_bitfield;
use c_layouts::marks::count_marks;
use c_layouts::status::{DONE, NO_SUCH, WRONG_HANDLE};
use node_maps::Paged;
use session::OwnedSession;
use std::alloc::Global;

fn file_counts(
    session: &OwnedSession<Paged>,
    number: usize,
    marked: &mut u64,
    blocks: &mut u64,
) -> u32
    ensures done { WritesFileCounts number marked.new blocks.new (kind.Session session.now) result
        (kind.Session session.now) }
    ensures unwritten { result ≢ 0 → (marked.new ≡ marked.old) × (blocks.new ≡ blocks.old) }
{
    match count_marks(session, number) {
        None => NO_SUCH,
        Some((marks, all)) => {
            *marked = marks;
            *blocks = all;
            DONE
        }
    }
}

fn bitfield(session: &OwnedSession<Paged>, room: &mut [u8], size: &mut u64) -> u32
    ensures done { WritesBitfield room.old room.new size.new (kind.Session session.now) result
        (kind.Session session.now) }
    ensures unwritten { result ≢ 0 → (room.new ≡ room.old)
        × (result ≢ 7 → size.new ≡ size.old) }
{
    write_bitfield(session, room, size)
}

/// Writes how many blocks of a file are marked as verified, and how many it has. Files of one tree
/// have their marks together. Status 1: the handle holds no session. Status 5: there is no such
/// file. The session is as before.
#[unsafe(no_mangle)]
pub extern "C" fn btcheck_session_file_counts(
    alloc: Global,
    handle: &mut Handle,
    number: usize,
    marked: &mut u64,
    blocks: &mut u64,
) -> u32
    ensures done { Through (WritesFileCounts number marked.new blocks.new) handle.old.slot.held
        result handle.new.slot.held }
    ensures unwritten { result ≢ 0 → (marked.new ≡ marked.old) × (blocks.new ≡ blocks.old) }
{
    lend!(handle, alloc, Session(session) => file_counts(session, number, marked, blocks))
}

/// Writes the bitfield of the torrent's pieces to the front of the room, and how many bytes it has:
/// a bit is set exactly if each block of its piece is marked as verified. Status 1: the handle
/// holds no session. Status 7: the room has fewer bytes than the bitfield, and stays as it is. The
/// session is as before.
#[unsafe(no_mangle)]
pub extern "C" fn btcheck_session_bitfield(
    alloc: Global,
    handle: &mut Handle,
    room: &mut [u8],
    length: &mut u64,
) -> u32
    ensures done { Through (WritesBitfield room.old room.new length.new) handle.old.slot.held result
        handle.new.slot.held }
    ensures unwritten { result ≢ 0 → (room.new ≡ room.old)
        × (result ≢ 7 → length.new ≡ length.old) }
{
    lend!(handle, alloc, Session(session) => bitfield(session, room, length))
}
