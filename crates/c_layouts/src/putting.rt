//! Bytes that go to a place of the caller's room.

ghost use Rattle.std.specs.Prelude.{◌≡◌, ◌≤◌, ◌+◌, ◌++◌, drop, length, take};

/// Writes these bytes from a place on, and returns where they end. Condition: there is room.
pub(crate) fn put(room: &mut [u8], place: usize, bytes: &[u8]) -> usize
    requires { place + length bytes.now ≤ length room.old }
    ensures end { result ≡ place + length bytes.now }
    ensures room { room.new ≡ take place room.old ++ (bytes.now ++ drop result room.old) }
{
    let end = place + bytes.len();
    room[place..end].copy_from_slice(bytes);
    end
}
