//! The calls that open a session.

ghost use Rattle.std.specs.Prelude.{◌≡◌, IsSome};
ghost use Rattle.c_layouts.specs.Refusals.{nothing_more};
ghost use Rattle.btcheck_c.specs.Openings.{OpensAs, SessionExplained, SessionOpened, refused};
ghost use Rattle.btcheck_c.specs.Holds.{FillsHandle};

use crate::handle::Handle;
use crate::thing::Kind;
use c_layouts::refusal_info::{NOTHING_MORE, RefusalInfo, lay_out_refusal};
use c_layouts::status::{NO_MEMORY, TORRENT, WRONG_HANDLE};
use filetree::Refusal;
use node_maps::Paged;
use opening::Torrent;
use session::OwnedSession;
use std::alloc::Global;

/// Why there is no session: the status, and what a refusal of the torrent has beside its number.
#[derive(Clone, Copy)]
pub(crate) struct NoSession {
    pub(crate) status: u32,
    pub(crate) more: RefusalInfo,
}

// The torrent's refusal, for C.
fn refused_torrent(refusal: &Refusal) -> NoSession
    ensures { result ≡ refused refusal.now }
{
    NoSession {
        status: TORRENT + u32::from(refusal.number()),
        more: lay_out_refusal(refusal),
    }
}

// A session of the torrent, or why there is none.
fn open_session(
    alloc: Global,
    input: &'static [u8],
    with_layers: bool,
) -> Result<OwnedSession<Paged>, NoSession>
    ensures { OpensAs input.now with_layers result }
{
    let torrent = match Torrent::open(alloc, input) {
        Err(refusal) => return Err(refused_torrent(&refusal)),
        Ok(torrent) => torrent,
    };
    match OwnedSession::new(alloc, torrent, with_layers) {
        Err(_) => Err(NoSession {
            status: NO_MEMORY,
            more: NOTHING_MORE,
        }),
        Ok(session) => {
            session.recall_closed_trees();
            Ok(session)
        }
    }
}

/// Opens a torrent, and makes a session of it in an empty handle. The bytes must stay as they are
/// until the handle is freed. Status 1: the handle is full. Status 2: memory was refused. Status
/// 100 + n: refusal n of the torrent. Then the handle is as before.
#[unsafe(no_mangle)]
pub extern "C" fn btcheck_session_open(
    alloc: Global,
    handle: &mut Handle,
    input: &'static [u8],
    with_layers: bool,
) -> u32
    ensures { FillsHandle (SessionOpened input.now with_layers) handle.old.slot.held result
        handle.new.slot.held }
{
    if handle.is_full() {
        return WRONG_HANDLE;
    }
    match open_session(alloc, input, with_layers) {
        Err(why) => why.status,
        Ok(session) => handle.fill(alloc, Kind::Session(session)),
    }
}

/// As [`btcheck_session_open`], and writes what a refusal of the torrent has beside its number: the
/// fault of bencoding and where it is, or the key. Where there is neither, and where the torrent is
/// not refused, it writes zeros.
#[unsafe(no_mangle)]
pub extern "C" fn btcheck_session_open_explained(
    alloc: Global,
    handle: &mut Handle,
    input: &'static [u8],
    with_layers: bool,
    more: &mut RefusalInfo,
) -> u32
    ensures done { FillsHandle (SessionExplained input.now with_layers more.new)
        handle.old.slot.held result handle.new.slot.held }
    ensures none { IsSome handle.old.slot.held → more.new ≡ nothing_more }
{
    *more = NOTHING_MORE;
    if handle.is_full() {
        return WRONG_HANDLE;
    }
    match open_session(alloc, input, with_layers) {
        Err(why) => {
            *more = why.more;
            why.status
        }
        Ok(session) => handle.fill(alloc, Kind::Session(session)),
    }
}
