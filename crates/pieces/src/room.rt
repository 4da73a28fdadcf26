//! Room in memory that is filled with zeros.

ghost use Rattle.std.specs.Prelude.{◌≡◌, IfSome, replicate, vec_len};
ghost use Rattle.std.specs.Vec.{vec_capacity};

use std::alloc::Global;

// How many zeros are put there at a time, which takes far fewer instructions than a byte at a time.
// They stand on the stack.
const PART: usize = 4096;

/// This many zeros, and room for no more, if memory for them is given.
pub fn room_of_zeros(alloc: Global, count: usize) -> Option<Vec<u8>>
    ensures zeros { IfSome result (λ room. room.items ≡ replicate count 0) }
    ensures count { IfSome result (λ room. vec_len room ≡ count) }
    ensures exact { IfSome result (λ room. vec_capacity room ≡ count) }
{
    let mut room = Vec::with_capacity(alloc, count).ok()?;
    let zeros = [0; PART];
    'parts: while room.len() < count {
        let part = (count - room.len()).min(PART);
        room.extend_from_slice(&zeros[..part]).ok()?;
    }
    // A list grows only where it has no room; no clause of `extend_from_slice` says so.
    (room.capacity() == count).then_some(room)
}
