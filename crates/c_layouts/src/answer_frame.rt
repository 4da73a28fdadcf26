//! What a session answers to a hash request, as the bytes of a frame (BEP 52, "hashes", "hash
//! reject").

ghost use Rattle.std.specs.Prelude.{◌≡◌, ◌≢◌};
ghost use Rattle.c_layouts.specs.AnswerFrames.{FitsFrame, HasAnswerFrame, HasRejectFrame};

use crate::ask_frames::reject_frame;
use crate::hashes_frame::write_hashes_frame;
use crate::putting::put;
use crate::status::{NO_MEMORY, NOTHING, TOO_SMALL};
use partial_tree::Answer;
use wire::Ask;

/// The status of an answer, whose frame goes to the front of the room, and how many bytes it has:
/// that of its hashes, or of a reject, with the status that there is nothing to answer with. If the
/// room has fewer bytes, nothing goes there. Condition: there are at most 8,224 hashes.
pub fn write_answer_frame(
    ask: &Ask,
    answer: &Option<Answer>,
    room: &mut [u8],
    size: &mut u64,
) -> u32
    requires { FitsFrame answer.now }
    ensures done { HasAnswerFrame answer.now ask.now result room.old room.new size.new }
    ensures unwritten { result ≢ 0 → result ≢ 6 → (room.new ≡ room.old)
        × (result ≢ 7 → size.new ≡ size.old) }
{
    match answer {
        None => NO_MEMORY,
        Some(Answer::Reject) => write_reject_frame(ask, room, size),
        Some(Answer::Hashes(hashes)) => write_hashes_frame(ask, hashes, room, size),
    }
}

// The status of a reject, whose frame goes to the front of the room, and how many bytes it has.
fn write_reject_frame(ask: &Ask, room: &mut [u8], size: &mut u64) -> u32
    ensures done { HasRejectFrame ask.now result room.old room.new size.new }
    ensures unwritten { result ≢ 6 → (result ≡ 7) × (room.new ≡ room.old) }
{
    let frame = reject_frame(ask);
    *size = frame.len() as u64;
    if frame.len() > room.len() {
        return TOO_SMALL;
    }
    put(room, 0, &frame);
    NOTHING
}
