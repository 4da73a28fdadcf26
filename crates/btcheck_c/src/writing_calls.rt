//! The calls that write frames for peers: of a hash request, of a hash reject, and of what answers
//! a request.

ghost use Rattle.std.specs.Prelude.{◌≡◌, ◌≢◌};
ghost use Rattle.wire.specs.Meaning.{reject_id, request_id};
ghost use Rattle.c_layouts.specs.AskFrames.{IsAskFrame};
ghost use Rattle.c_layouts.specs.Asks.{ask_of};
ghost use Rattle.btcheck_c.specs.WritingCalls.{AnswersFrame};
ghost use Rattle.btcheck_c.specs.Holds.{Through};
ghost use Rattle.btcheck_c.specs.declared.thing.Kind.TheVariants as kind;

use crate::ask_calls::answer_to;
use crate::handle::Handle;
use crate::lending::lend;
use crate::thing::Kind;
use c_layouts::answer_frame::write_answer_frame;
use c_layouts::ask_frames::{reject_frame, request_frame};
use c_layouts::asked::{Asked, read_ask};
use c_layouts::status::WRONG_HANDLE;
use node_maps::Paged;
use session::OwnedSession;
use std::alloc::Global;
use wire::Ask;

fn answer_frame(session: &OwnedSession<Paged>, ask: &Ask, room: &mut [u8], length: &mut u64) -> u32
    ensures done { AnswersFrame ask.now room.old room.new length.new (kind.Session session.now)
        result (kind.Session session.now) }
    ensures unwritten { result ≢ 0 → result ≢ 6 → (room.new ≡ room.old)
        × (result ≢ 7 → length.new ≡ length.old) }
{
    session.torrent().recall_sound();
    write_answer_frame(ask, &answer_to(session, ask), room, length)
}

/// Writes the frame of a hash request with these fields: the four bytes of its length, and its
/// body.
#[unsafe(no_mangle)]
pub extern "C" fn btcheck_request_frame(asked: &Asked, frame: &mut [u8; 53])
    ensures { IsAskFrame request_id (ask_of asked.now) frame.new }
{
    *frame = request_frame(&read_ask(asked));
}

/// Writes the frame of a hash reject of a request with these fields: the four bytes of its length,
/// and its body.
#[unsafe(no_mangle)]
pub extern "C" fn btcheck_reject_frame(asked: &Asked, frame: &mut [u8; 53])
    ensures { IsAskFrame reject_id (ask_of asked.now) frame.new }
{
    *frame = reject_frame(&read_ask(asked));
}

/// Writes the frame that answers a request to the front of the room, with the four bytes of its
/// length, and how many bytes it has. Status 0: it has the hashes. Status 6: they are not known,
/// and the frame is a reject. Status 1: the handle holds no session. Status 2: memory was refused.
/// Status 7: the room has fewer bytes than the frame, and stays as it is. The session is as before.
#[unsafe(no_mangle)]
pub extern "C" fn btcheck_session_answer_frame(
    alloc: Global,
    handle: &mut Handle,
    asked: &Asked,
    room: &mut [u8],
    length: &mut u64,
) -> u32
    ensures done { Through (AnswersFrame (ask_of asked.now) room.old room.new length.new)
        handle.old.slot.held result handle.new.slot.held }
    ensures unwritten { result ≢ 0 → result ≢ 6 → (room.new ≡ room.old)
        × (result ≢ 7 → length.new ≡ length.old) }
{
    lend!(handle, alloc, Session(session) => answer_frame(session, &read_ask(asked), room, length))
}
