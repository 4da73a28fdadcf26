//! The calls on whole frames, as they came.

ghost use Rattle.std.specs.Prelude.{◌≡◌, ◌≢◌};
ghost use Rattle.btcheck_c.specs.Held.{OnBoth, WithHoldings};
ghost use Rattle.btcheck_c.specs.Holds.{Through, ThroughBoth};
ghost use Rattle.btcheck_c.specs.WholeFrames.{HoldsWhole, TakesWhole};

use crate::frame_taking::{hold_whole, take_whole};
use crate::handle::Handle;
use crate::lending::lend;
use crate::thing::Kind;
use c_layouts::status::WRONG_HANDLE;
use c_layouts::taken_info::TakenInfo;
use node_maps::Paged;
use session::OwnedSession;
use std::alloc::Global;

// Takes a frame beside what another handle holds.
fn hold_beside(
    alloc: Global,
    session: &mut OwnedSession<Paged>,
    holdings: &mut Handle,
    frame: &[u8],
    asked: bool,
    out: &mut TakenInfo,
) -> u32
    ensures done { WithHoldings (HoldsWhole asked frame.now out.old out.new) session.old
        holdings.old.slot.held result session.new holdings.new.slot.held }
    ensures unwritten { result ≢ 0 → out.new ≡ out.old }
{
    lend!(holdings, alloc, Holdings(held) => hold_whole(session, held, frame, asked, out))
}

/// Takes a whole frame of the peer protocol as it came, from the four bytes of its length on, and
/// writes what is made of it, with the five fields of a hash request, of hashes and of a reject. If
/// hashes must be asked for, they are taken as by [`btcheck_session_take_answer`]. Status 1: the
/// handle holds no session. Status 9: bytes of the frame are still to come. Status 3: bytes follow
/// it. Status 8: a message of id 7, 21, 22 or 23 has a wrong size. Status 200 + n, 300 + n: refusal
/// Hn, Pn. Then the session is as before.
#[unsafe(no_mangle)]
pub extern "C" fn btcheck_session_take_frame(
    alloc: Global,
    handle: &mut Handle,
    frame: &[u8],
    asked: bool,
    out: &mut TakenInfo,
) -> u32
    ensures done { Through (TakesWhole asked frame.now out.old out.new) handle.old.slot.held result
        handle.new.slot.held }
    ensures unwritten { result ≢ 0 → out.new ≡ out.old }
{
    lend!(handle, alloc, Session(session) => take_whole(session, frame, asked, out))
}

/// As [`btcheck_session_take_frame`], but blocks are taken as by [`btcheck_session_hold`]: what
/// cannot be proved yet is held, and what gave way for it is written. After hashes were taken,
/// [`btcheck_session_settle`] looks at all pieces of their tree, and after blocks at theirs. Status
/// 1: a handle holds something else. At each refusal session and holdings are as before.
#[unsafe(no_mangle)]
pub extern "C" fn btcheck_session_hold_frame(
    alloc: Global,
    session: &mut Handle,
    holdings: &mut Handle,
    frame: &[u8],
    asked: bool,
    out: &mut TakenInfo,
) -> u32
    ensures done { ThroughBoth (OnBoth (HoldsWhole asked frame.now out.old out.new))
        session.old.slot.held holdings.old.slot.held result session.new.slot.held
        holdings.new.slot.held }
    ensures unwritten { result ≢ 0 → out.new ≡ out.old }
{
    lend!(session, alloc, Session(lent) => hold_beside(alloc, lent, holdings, frame, asked, out))
}
