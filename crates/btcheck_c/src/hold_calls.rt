//! The calls on what is held beside a session of blocks that cannot be proved yet.

ghost use Rattle.std.specs.Prelude.{◌≡◌, ◌≢◌, None};
ghost use Rattle.btcheck_c.specs.Held.{CountsHeld, HoldingStarted, HoldsBlocks, LooksAt, OnBoth, SettlesHeld, StartsHolding, WithHoldings};
ghost use Rattle.btcheck_c.specs.Holds.{BegunFrom, Through, ThroughBoth};
ghost use Rattle.btcheck_c.specs.declared.thing.Kind.TheVariants as kind;

use crate::handle::Handle;
use crate::held::{Cursor, Held};
use crate::holding::{hold_blocks, settle_held};
use crate::lending::lend;
use crate::thing::Kind;
use c_layouts::held_info::{HeldInfo, RunInfo};
use c_layouts::status::{DONE, NO_MEMORY, WRONG_HANDLE};
use hashtree::BLOCK_LENGTH;
use node_maps::Paged;
use session::OwnedSession;
use std::alloc::Global;

fn start_holdings(alloc: Global, session: &mut Handle, bound: usize) -> Result<Held, u32>
    ensures { BegunFrom (StartsHolding bound) session.old.slot.held result session.new.slot.held }
{
    lend!(session, alloc, Session(lent) => held_for(alloc, lent, bound), else Err(WRONG_HANDLE))
}

// Holdings for the torrent of a session, or the status.
fn held_for(alloc: Global, session: &OwnedSession<Paged>, bound: usize) -> Result<Held, u32>
    ensures { StartsHolding bound (kind.Session session.now) result (kind.Session session.now) }
{
    let longest = session.torrent().piece_length() / BLOCK_LENGTH;
    match Held::new(alloc, bound, longest as usize) {
        Ok(held) => Ok(held),
        Err(_) => Err(NO_MEMORY),
    }
}

// What a piece message says: where its blocks begin, and their bytes.
#[derive(Clone, Copy)]
struct PieceFields<'b> {
    index: u32,
    begin: u32,
    bytes: &'b [u8],
}

fn hold(
    alloc: Global,
    session: &mut OwnedSession<Paged>,
    holdings: &mut Handle,
    piece: &PieceFields<'_>,
    out: &mut HeldInfo,
) -> u32
    ensures done { WithHoldings
        (HoldsBlocks piece.now.index piece.now.begin piece.now.bytes.now out.new)
        session.old holdings.old.slot.held result session.new holdings.new.slot.held }
    ensures unwritten { result ≢ 0 → out.new ≡ out.old }
{
    lend!(holdings, alloc, Holdings(held) =>
        hold_blocks(session, held, piece.index, piece.begin, piece.bytes, out))
}

fn settle(
    alloc: Global,
    session: &mut OwnedSession<Paged>,
    holdings: &mut Handle,
    run: &mut RunInfo,
) -> u32
    ensures done { WithHoldings (SettlesHeld run.new) session.old holdings.old.slot.held result
        session.new holdings.new.slot.held }
    ensures unwritten { result ≢ 0 → result ≢ 10 → run.new ≡ run.old }
{
    lend!(holdings, alloc, Holdings(held) => settle_held(session, held, run))
}

fn look_at(held: &mut Held, tree: usize) -> u32
    ensures { LooksAt tree (kind.Holdings held.old) result (kind.Holdings held.new) }
{
    held.cursor = Cursor::of_tree(tree);
    DONE
}

fn count_held(held: &Held, count: &mut u64) -> u32
    ensures done { CountsHeld count.new (kind.Holdings held.now) result (kind.Holdings held.now) }
    ensures unwritten { result ≢ 0 → count.new ≡ count.old }
{
    *count = held.holdings.held();
    DONE
}

/// Makes holdings beside a session in an empty handle, which hold nothing. The bound is how many
/// blocks they hold at most, but never fewer than the torrent's longest piece has. Status 1: the
/// handle is full, or the other one holds no session. Status 2: memory was refused. Then the handle
/// is as before. The session is as before always.
#[unsafe(no_mangle)]
pub extern "C" fn btcheck_holdings_new(
    alloc: Global,
    handle: &mut Handle,
    session: &mut Handle,
    bound: usize,
) -> u32
    ensures { HoldingStarted bound session.old.slot.held handle.old.slot.held result
        handle.new.slot.held session.new.slot.held }
{
    if handle.is_full() {
        return WRONG_HANDLE;
    }
    match start_holdings(alloc, session, bound) {
        Err(status) => status,
        Ok(held) => handle.fill(alloc, Kind::Holdings(held)),
    }
}

/// Takes the blocks of a piece message, and writes which they are and what is made of each. Of a
/// block that cannot be proved yet the digest is held, in place of an older one: status 11, or 2 if
/// none can be held for it, which takes no memory: 2^64 - 1 were held, or the holdings are those
/// of another torrent. If there was no room for its piece, another piece gave way, whose
/// blocks are written. What can be settled then is settled by [`btcheck_session_settle`]. Status 1:
/// a handle holds something else. Status 301 or 302: the whole message is refused. Then session and
/// holdings are as before.
#[unsafe(no_mangle)]
pub extern "C" fn btcheck_session_hold(
    alloc: Global,
    session: &mut Handle,
    holdings: &mut Handle,
    index: u32,
    begin: u32,
    bytes: &[u8],
    out: &mut HeldInfo,
) -> u32
    ensures done { ThroughBoth (OnBoth (HoldsBlocks index begin bytes.now out.new))
        session.old.slot.held holdings.old.slot.held result session.new.slot.held
        holdings.new.slot.held }
    ensures unwritten { result ≢ 0 → out.new ≡ out.old }
{
    let piece = PieceFields {
        index,
        begin,
        bytes,
    };
    lend!(session, alloc, Session(lent) => hold(alloc, lent, holdings, &piece, out))
}

/// Settles what can be settled first of the pieces that are looked at: those that have a block of
/// the last message that was held. Its blocks are written. Status 0: they are proved, and marked.
/// Status 10: they are false, and given up. Status 6: nothing is left to settle. Status 2: memory
/// was refused for a piece, whose blocks stay held; the pieces after it come next. Status 5: the
/// torrent has no such tree. Status 1: a handle holds something else. Then session and holdings are
/// as before.
#[unsafe(no_mangle)]
pub extern "C" fn btcheck_session_settle(
    alloc: Global,
    session: &mut Handle,
    holdings: &mut Handle,
    run: &mut RunInfo,
) -> u32
    ensures done { ThroughBoth (OnBoth (SettlesHeld run.new)) session.old.slot.held
        holdings.old.slot.held result session.new.slot.held holdings.new.slot.held }
    ensures unwritten { result ≢ 0 → result ≢ 10 → run.new ≡ run.old }
{
    lend!(session, alloc, Session(lent) => settle(alloc, lent, holdings, run))
}

/// Has [`btcheck_session_settle`] look at all pieces of a tree, as after hashes of that tree were
/// taken. Status 1: the handle has no holdings. What is held is as before.
#[unsafe(no_mangle)]
pub extern "C" fn btcheck_holdings_look_at(alloc: Global, handle: &mut Handle, tree: usize) -> u32
    ensures { Through (LooksAt tree) handle.old.slot.held result handle.new.slot.held }
{
    lend!(handle, alloc, Holdings(held) => look_at(held, tree))
}

/// Writes how many blocks are held. Status 1: the handle has no holdings. They are as before.
#[unsafe(no_mangle)]
pub extern "C" fn btcheck_session_held(alloc: Global, handle: &mut Handle, count: &mut u64) -> u32
    ensures done { Through (CountsHeld count.new) handle.old.slot.held result
        handle.new.slot.held }
    ensures unwritten { result ≢ 0 → count.new ≡ count.old }
{
    lend!(handle, alloc, Holdings(held) => count_held(held, count))
}

/// Frees what the handle holds, and empties it.
#[unsafe(no_mangle)]
pub extern "C" fn btcheck_holdings_free(alloc: Global, handle: &mut Handle)
    ensures { handle.new.slot.held ≡ None }
{
    drop(handle.take(alloc));
}
