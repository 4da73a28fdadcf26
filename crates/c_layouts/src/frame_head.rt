//! What the frames about hashes begin with (BEP 3, "peer messages"; BEP 52, "new messages").

ghost use Rattle.std.specs.Prelude.{◌≡◌, ◌+◌, ◌≤◌, ◌∷◌, ◌++◌, drop, length, take};
ghost use Rattle.wire.specs.Frames.{four_bytes};
ghost use Rattle.wire.specs.Meaning.{IsAsk, ask_bytes};

use crate::putting::put;
use byteorder::{BigEndian, ByteOrder};
use wire::{ASK_SIZE, Ask};

// Bytes of the four that say a frame's length.
const LENGTH_SIZE: usize = 4;

/// The bytes of a frame's length, the id and the five fields.
pub(crate) const HEAD_SIZE: usize = LENGTH_SIZE + ASK_SIZE as usize;

/// Writes the length of a body, its id and the five fields to the front of the room, and returns
/// where they end. Condition: there is room.
pub(crate) fn put_head(room: &mut [u8], body: u32, id: u8, ask: &Ask) -> usize
    requires { 53 ≤ length room.old }
    ensures fields { IsAsk ask.now }
    ensures end { result ≡ 53 }
    ensures room { room.new
        ≡ (four_bytes body ++ (id ∷ ask_bytes ask.now)) ++ drop 53 room.old }
{
    let mut end = put_number(room, 0, body);
    end = put(room, end, &[id]);
    put_ask(room, end, ask)
}

// Writes the five fields from a place on, and returns where they end.
fn put_ask(room: &mut [u8], place: usize, ask: &Ask) -> usize
    requires { place + 48 ≤ length room.old }
    ensures fields { IsAsk ask.now }
    ensures end { result ≡ place + 48 }
    ensures room { room.new ≡ take place room.old ++ (ask_bytes ask.now ++ drop result room.old) }
{
    let mut end = put(room, place, &ask.root);
    end = put_number(room, end, ask.base);
    end = put_number(room, end, ask.index);
    end = put_number(room, end, ask.length);
    put_number(room, end, ask.proof)
}

// Writes a number as four bytes from a place on, and returns where they end.
fn put_number(room: &mut [u8], place: usize, number: u32) -> usize
    requires { place + 4 ≤ length room.old }
    ensures end { result ≡ place + 4 }
    ensures room { room.new ≡ take place room.old ++ (four_bytes number ++ drop result room.old) }
{
    let mut bytes = [0u8; 4];
    BigEndian::write_u32(&mut bytes, number);
    put(room, place, &bytes)
}
