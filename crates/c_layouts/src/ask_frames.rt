//! A hash request and a hash reject as the bytes of their frames (BEP 3, "peer messages"; BEP 52,
//! "hash request", "hash reject").

ghost use Rattle.wire.specs.Meaning.{reject_id, request_id};
ghost use Rattle.c_layouts.specs.AskFrames.{IsAskFrame};

use crate::frame_head::{HEAD_SIZE, put_head};
use wire::{ASK_SIZE, Ask, REQUEST_ID};

// The id of a hash reject.
const REJECT_ID: u8 = 23;

/// The frame of a hash request.
pub fn request_frame(ask: &Ask) -> [u8; HEAD_SIZE]
    ensures { IsAskFrame request_id ask.now result }
{
    ask_frame(REQUEST_ID, ask)
}

/// The frame of a hash reject.
pub fn reject_frame(ask: &Ask) -> [u8; HEAD_SIZE]
    ensures { IsAskFrame reject_id ask.now result }
{
    ask_frame(REJECT_ID, ask)
}

// The frame of a body of this id with the five fields alone.
fn ask_frame(id: u8, ask: &Ask) -> [u8; HEAD_SIZE]
    ensures { IsAskFrame id ask.now result }
{
    let mut bytes = [0; HEAD_SIZE];
    put_head(&mut bytes, ASK_SIZE, id, ask);
    bytes
}
