//! A path as one text: its components, joined by `/`.

ghost use Rattle.std.specs.Prelude.{◌≡◌, ◌≢◌, ◌-◌, ◌^◌, ◌≤◌, ◌+◌, ◌++◌, drop, length, map, min, take};
ghost use Rattle.c_layouts.specs.Paths.{joined_path_text, HasPath};

use crate::putting::put;
use crate::status::{DONE, TOO_SMALL};

/// The status of a path, which goes to the front of the room, and how many bytes it has. If the
/// room has fewer, nothing goes there.
pub fn write_path(parts: &[&str], room: &mut [u8], length: &mut u64) -> u32
    ensures done { HasPath (joined_path_text (map (λ s. s.now) parts.now)) result room.old room.new
        length.new }
    ensures unwritten { result ≢ 0 → (room.new ≡ room.old)
        × (result ≢ 7 → length.new ≡ length.old) }
{
    let count = text_length(parts);
    *length = count as u64;
    if count > room.len() {
        return TOO_SMALL;
    }
    write_text(parts, room);
    DONE
}

// How many bytes the text has; 2^64 - 1 if it has more.
fn text_length(parts: &[&str]) -> usize
    ensures { result ≡ min (length (joined_path_text (map (λ s. s.now) parts.now))) (2 ^ 64 - 1) }
{
    let Some((first, others)) = parts.split_first() else {
        return 0;
    };
    let mut count = first.as_bytes().len();
    'parts: for part in others {
        count = count.saturating_add(1).saturating_add(part.len());
    }
    count
}

// Writes the text to the front of the room.
fn write_text(parts: &[&str], room: &mut [u8])
    requires { length (joined_path_text (map (λ s. s.now) parts.now)) ≤ length room.old }
    ensures { room.new ≡ joined_path_text (map (λ s. s.now) parts.now)
        ++ drop (length (joined_path_text (map (λ s. s.now) parts.now))) room.old }
{
    let Some((first, others)) = parts.split_first() else {
        return;
    };
    let mut end = put(room, 0, first.as_bytes());
    'parts: for part in others {
        end = put(room, end, b"/");
        end = put(room, end, part.as_bytes());
    }
}
