//! The calls that keep what a session knows between two runs of a program: its leaves, as messages
//! and as layers.

ghost use Rattle.std.specs.Prelude.{◌≡◌, ◌≢◌};
ghost use Rattle.btcheck_c.specs.Keeping.{ExportWritten, Exports, SessionTakesLayer};
ghost use Rattle.btcheck_c.specs.Holds.{Through};
ghost use Rattle.btcheck_c.specs.declared.thing.Kind.TheVariants as kind;

use crate::handle::Handle;
use crate::lending::lend;
use crate::thing::Kind;
use c_layouts::cursor_info::{CursorInfo, lay_out_cursor, read_cursor};
use c_layouts::hashes_frame::write_hashes_frame;
use c_layouts::status::{DONE, NO_MEMORY, NO_SUCH, NOTHING, WRONG_HANDLE, status_of_hashes};
use node_maps::Paged;
use partial_tree::Answer;
use session::OwnedSession;
use session_exports::next_export;
use std::alloc::Global;
use wire::Hash;

fn take_layer(
    session: &mut OwnedSession<Paged>,
    tree: usize,
    layer: u32,
    hashes: &[Hash],
    places: &mut u64,
) -> u32
    ensures done { SessionTakesLayer tree layer hashes.now places.new (kind.Session session.old)
        result (kind.Session session.new) }
    ensures unwritten { result ≢ 0 → places.new ≡ places.old }
{
    if tree >= session.torrent().trees().len() {
        return NO_SUCH;
    }
    status_of_hashes(session.fill(tree, layer, hashes), places)
}

// Writes the leaves that are exported next, and moves the cursor behind them.
fn write_export(
    session: &OwnedSession<Paged>,
    cursor: &mut CursorInfo,
    room: &mut [u8],
    length: &mut u64,
) -> u32
    ensures done { ExportWritten session.now cursor.old room.old result cursor.new room.new
        length.new }
    ensures unwritten { result ≢ 0 → (cursor.new ≡ cursor.old) × (room.new ≡ room.old)
        × (result ≢ 7 → length.new ≡ length.old) }
{
    session.torrent().recall_sound();
    session.recall_closed_trees();
    session.recall_distinct_roots();
    let Some(export) = next_export(session, read_cursor(cursor)) else {
        return NOTHING;
    };
    match session.answer(&export.ask) {
        Err(_) => NO_MEMORY,
        Ok(Answer::Reject) => unreachable!(),
        Ok(Answer::Hashes(hashes)) => {
            let status = write_hashes_frame(&export.ask, &hashes, room, length);
            if status == DONE {
                *cursor = lay_out_cursor(export.end());
            }
            status
        }
    }
}

/// Takes a whole layer of a tree, the leaves say, without the pads at its end, and writes how many
/// places are newly known. Status 1: the handle holds no session. Status 5: there is no such tree.
/// Status 202: the layer is above the root. Status 203: it has another number of hashes. Status
/// 206: a hash differs from a known one. Status 207: memory was refused. Then the session is as
/// before.
#[unsafe(no_mangle)]
pub extern "C" fn btcheck_session_fill(
    alloc: Global,
    handle: &mut Handle,
    tree: usize,
    layer: u32,
    hashes: &[[u8; 32]],
    places: &mut u64,
) -> u32
    ensures done { Through (SessionTakesLayer tree layer hashes.now places.new) handle.old.slot.held
        result handle.new.slot.held }
    ensures unwritten { result ≢ 0 → places.new ≡ places.old }
{
    lend!(handle, alloc, Session(session) => take_layer(session, tree, layer, hashes, places))
}

/// Writes the frame of a hashes message, with its length, to the front of the room, and how many
/// bytes it has, and moves the cursor behind its leaves: the first range of known leaves from the
/// cursor on, with proof up to the root, which any session of the torrent takes. Status 1: the
/// handle holds no session. Status 2: memory was refused. Status 6: no leaf is known from the
/// cursor on. Status 7: the room has fewer bytes than the frame. Then cursor and room stay as they
/// are. The session is as before.
#[unsafe(no_mangle)]
pub extern "C" fn btcheck_session_export(
    alloc: Global,
    handle: &mut Handle,
    cursor: &mut CursorInfo,
    room: &mut [u8],
    length: &mut u64,
) -> u32
    ensures done { Through (Exports cursor.old room.old cursor.new room.new length.new)
        handle.old.slot.held result handle.new.slot.held }
    ensures unwritten { result ≢ 0 → (cursor.new ≡ cursor.old) × (room.new ≡ room.old)
        × (result ≢ 7 → length.new ≡ length.old) }
{
    lend!(handle, alloc, Session(session) => write_export(session, cursor, room, length))
}
