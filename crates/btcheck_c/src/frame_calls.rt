//! The call on the body of a frame, as it came.

ghost use Rattle.std.specs.Prelude.{◌≡◌, ◌≢◌};
ghost use Rattle.btcheck_c.specs.Frames.{FrameTaken, TakesFrame};
ghost use Rattle.btcheck_c.specs.Holds.{Through};

use crate::handle::Handle;
use crate::lending::lend;
use crate::thing::Kind;
use c_layouts::status::{BAD_SIZE, TOO_LONG, WRONG_HANDLE};
use c_layouts::verdict_info::{VerdictInfo, write_verdict};
use node_maps::Paged;
use session::OwnedSession;
use std::alloc::Global;
use wire::{Frame, frame_in};

// Takes the message of a body, if it is one.
fn take_frame(session: &mut OwnedSession<Paged>, body: &[u8], out: &mut VerdictInfo) -> u32
    ensures done { FrameTaken body.now out.old out.new session.old result session.new }
    ensures unwritten { result ≢ 0 → out.new ≡ out.old }
{
    if body.len() > u32::MAX as usize {
        return TOO_LONG;
    }
    match frame_in(body) {
        Frame::BadSize { .. } => BAD_SIZE,
        Frame::Message(message) => write_verdict(&session.step(&message), out),
    }
}

/// Takes the body of a frame of the peer protocol as it came, without the four bytes of its length,
/// and writes what is made of it. Status 1: the handle holds no session. Status 3: the body has
/// 2^32 bytes or more. Status 8: a message of id 7, 21, 22 or 23 has a wrong size. Status 200 + n,
/// 300 + n: refusal Hn, Pn. Then the session is as before.
#[unsafe(no_mangle)]
pub extern "C" fn btcheck_session_frame(
    alloc: Global,
    handle: &mut Handle,
    body: &[u8],
    out: &mut VerdictInfo,
) -> u32
    ensures done { Through (TakesFrame body.now out.old out.new) handle.old.slot.held result
        handle.new.slot.held }
    ensures unwritten { result ≢ 0 → out.new ≡ out.old }
{
    lend!(handle, alloc, Session(session) => take_frame(session, body, out))
}
