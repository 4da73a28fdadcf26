//! The status of a draft that refuses, and its text in the caller's room.

ghost use Rattle.std.specs.Prelude.{◌≡◌, ◌≢◌};
ghost use Rattle.c_layouts.specs.Drafts.{HasDraftStatus};
ghost use Rattle.c_layouts.specs.Paths.{HasPath};

use crate::putting::put;
use crate::status::{DONE, NO_MEMORY, TOO_SMALL, TORRENT};
use filetree::Refusal;

/// The status of a draft's refusal: 2 if memory was refused, else 100 and its number.
pub fn refused_draft(refusal: &Refusal) -> u32
    ensures { HasDraftStatus refusal.now result }
{
    if *refusal == Refusal::NoMemory {
        return NO_MEMORY;
    }
    TORRENT + u32::from(refusal.number())
}

/// The status of a text, which goes to the front of the room, and how many bytes it has. If the
/// room has fewer, nothing goes there.
pub fn write_bytes(text: &[u8], room: &mut [u8], length: &mut u64) -> u32
    ensures done { HasPath text.now result room.old room.new length.new }
    ensures unwritten { result ≢ 0 → (room.new ≡ room.old)
        × (result ≢ 7 → length.new ≡ length.old) }
{
    *length = text.len() as u64;
    if text.len() > room.len() {
        return TOO_SMALL;
    }
    put(room, 0, text);
    DONE
}
