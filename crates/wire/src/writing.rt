//! Frames to a sink.
ghost use Rattle.std.specs.Prelude.{◌≡◌, ◌↔◌, ◌≤◌, ◌<◌, ◌++◌, ℕ, List, All, ◌*◌, length, take, IsTrue};
ghost use Rattle.std.specs.List.{flat_map};
ghost use Rattle.benc.specs.Device.{Wrote};
ghost use Rattle.wire.specs.Frames.{IsBody, frame};
ghost use Rattle.wire.specs.Meaning.{MeansMessage};
ghost use Rattle.wire.specs.Writable.{IsWritable};

use crate::fields::{ask_fields, piece_fields};
use crate::kind::{ASK_SIZE, HASH_SIZE, Kind, MAX_BODY, MIN_PIECE};
use crate::message::Message;
use benc::{Sink, WriteFault, write_all};

// The longest block of a body that is kept, in bytes.
const MAX_BLOCK: usize = (MAX_BODY - MIN_PIECE) as usize;

// The most hashes of a body that is kept.
const MAX_HASHES: usize = ((MAX_BODY - ASK_SIZE) / HASH_SIZE) as usize;

impl Message<'_> {
    /// Whether `write` takes it: not a message of another id, nor a block of more than 263,208
    /// bytes, nor more than 8,224 hashes.
    pub fn is_writable(&self) -> bool
        ensures { IsTrue result ↔ IsWritable self.now }
    {
        match self {
            Message::Piece { block, .. } => block.len() <= MAX_BLOCK,
            Message::Hashes { hashes, .. } => hashes.len() <= MAX_HASHES,
            Message::Request(_) | Message::Reject(_) | Message::KeepAlive => true,
            Message::Other { .. } => false,
        }
    }
}

/// Writes the frame of a message. It takes no memory and does not flush. After a fault a prefix of
/// the frame went out. Condition: [`Message::is_writable`] holds of the message.
pub fn write<W: Sink>(m: &Message<'_>, w: &mut W) -> Result<(), WriteFault>
    requires { IsWritable m.now }
    ensures { (body : List ℕ) × IsBody body × MeansMessage body m.now
        × Wrote (W.seen w.old) (W.seen w.new) result (frame body) }
{
    match m {
        Message::KeepAlive => put(w, &[0; 4], &[]),
        Message::Piece {
            index,
            begin,
            block,
        } => put(
            w,
            piece_fields(*index, *begin, block.len() as u32).as_slice(),
            block,
        ),
        Message::Request(ask) => put(w, ask_fields(Kind::Request, ask, 0).as_slice(), &[]),
        Message::Hashes { ask, hashes } => put(
            w,
            ask_fields(Kind::Hashes, ask, hashes.len() as u32).as_slice(),
            bytes_of(hashes),
        ),
        Message::Reject(ask) => put(w, ask_fields(Kind::Reject, ask, 0).as_slice(), &[]),
        Message::Other { .. } => unreachable!(),
    }
}

// Writes bytes and then more.
fn put<W: Sink>(out: &mut W, first: &[u8], rest: &[u8]) -> Result<(), WriteFault>
    ensures { Wrote (W.seen out.old) (W.seen out.new) result (first.now ++ rest.now) }
{
    write_all(out, first)?;
    write_all(out, rest)?;
    Ok(())
}

// The bytes of the hashes, with no copy.
fn bytes_of(hashes: &[[u8; 32]]) -> &[u8]
    ensures joined { result.now ≡ flat_map (λ h. h) hashes.now }
    ensures len { length result.now ≡ length hashes.now * 32 }
    ensures each { All (λ h. length h ≡ 32) hashes.now }
{
    hashes.as_flattened()
}
