//! The message of a whole frame, as it came (BEP 3, "peer messages").

ghost use Rattle.std.specs.Prelude.{IfErr, IfOk};
ghost use Rattle.c_layouts.specs.WholeFrames.{IsFrameOf, IsNoFrame, IsNoMessage, IsWholeFrame};

use crate::status::{BAD_SIZE, TOO_LONG, TOO_SHORT};
use wire::{Frame, Message, frame_in, number_at};

// Bytes of the four that say a frame's length.
const LENGTH_SIZE: usize = 4;

/// The message of a frame, from the four bytes of its length on, or the status. Status 9: bytes of
/// the frame are still to come. Status 3: bytes follow it. Status 8: a message of id 7, 21, 22 or
/// 23 has a wrong size. A block and hashes are lent from the frame itself, and no memory is taken.
pub fn message_in(frame: &[u8]) -> Result<Message<'_>, u32>
    ensures message { IfOk result (IsFrameOf frame.now) }
    ensures none { IfErr result (IsNoMessage frame.now) }
{
    match body_in(frame) {
        Err(status) => Err(status),
        Ok(body) => match frame_in(body) {
            Frame::BadSize { .. } => Err(BAD_SIZE),
            Frame::Message(message) => Ok(message),
        },
    }
}

// The body of a frame, or the status.
fn body_in(frame: &[u8]) -> Result<&[u8], u32>
    ensures body { IfOk result (λ body. IsWholeFrame frame.now body.now) }
    ensures none { IfErr result (IsNoFrame frame.now) }
{
    if frame.len() < LENGTH_SIZE {
        return Err(TOO_SHORT);
    }
    let length = number_at(frame) as usize;
    let body = &frame[LENGTH_SIZE..];
    if body.len() < length {
        return Err(TOO_SHORT);
    }
    if body.len() > length {
        return Err(TOO_LONG);
    }
    Ok(body)
}
