//! A hashes message as the bytes of its frame (BEP 3, "peer messages"; BEP 52, "hashes").

ghost use Rattle.std.specs.Prelude.{◌≡◌, ◌≢◌, ◌≤◌, length};
ghost use Rattle.c_layouts.specs.HashesFrames.{HasFrame, most_hashes};

use crate::frame_head::{HEAD_SIZE, put_head};
use crate::putting::put;
use crate::status::{DONE, TOO_SMALL};
use partial_tree::recall_hashes;
use wire::{ASK_SIZE, Ask, Hash};

// The id of a hashes message.
const HASHES_ID: u8 = 22;

/// The status of a hashes message, whose frame goes to the front of the room, and how many bytes it
/// has. If the room has fewer, nothing goes there. Condition: there are at most 8,224 hashes.
pub fn write_hashes_frame(ask: &Ask, hashes: &[Hash], room: &mut [u8], size: &mut u64) -> u32
    requires { length hashes.now ≤ most_hashes }
    ensures done { HasFrame ask.now hashes.now result room.old room.new size.new }
    ensures unwritten { result ≢ 0 → room.new ≡ room.old }
{
    let bytes = hashes.as_flattened();
    *size = (HEAD_SIZE + bytes.len()) as u64;
    if HEAD_SIZE + bytes.len() > room.len() {
        return TOO_SMALL;
    }
    recall_hashes(hashes);
    let end = put_head(room, ASK_SIZE + bytes.len() as u32, HASHES_ID, ask);
    put(room, end, bytes);
    DONE
}
