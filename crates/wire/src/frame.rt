//! A frame of the stream, as far as it is kept: its head, and what its body means.
ghost use Rattle.std.specs.Prelude.{◌≡◌, ◌↔◌, ℕ, List, IsTrue};
ghost use Rattle.wire.specs.Head.{IsBodyWithHead, IsHead};
ghost use Rattle.wire.specs.Meaning.{IsHashesSize, Means, hashes_id};
ghost use Rattle.wire.specs.Frames.{IsBody};

use crate::kind::Kind;
use crate::message::Message;
use crate::parse::message_of;

/// A frame: the message that its body means, or a body of a wrong size.
#[derive(Clone, Copy, Debug)]
pub enum Frame<'a> {
    /// The message.
    Message(Message<'a>),
    /// A body of id 7, 21, 22 or 23 of a wrong size, which was skipped.
    BadSize {
        /// The id, the body's first byte.
        id: u8,
        /// The length of the body in bytes, its id counted.
        len: u32,
    },
}

/// The head of a frame. A length counts the id.
#[derive(Clone, Copy)]
pub(crate) enum Head {
    /// No body.
    KeepAlive,
    /// A message of a known kind.
    Kept {
        /// Which one.
        kind: Kind,
        /// The length of its body.
        len: u32,
    },
    /// A message of a known kind with a wrong size.
    BadSize {
        /// Its id.
        id: u8,
        /// The length of its body.
        len: u32,
    },
    /// A message of another id.
    Other {
        /// Its id.
        id: u8,
        /// The length of its body.
        len: u32,
    },
}

impl Head {
    /// The head of a body with this id and this length.
    pub(crate) fn of(id: u8, len: u32) -> Head
        ensures { IsHead id len result }
    {
        match Kind::of(id) {
            None => Head::Other { id, len },
            Some(kind) if kind.takes(len) => Head::Kept { kind, len },
            Some(_) => Head::BadSize { id, len },
        }
    }
}

/// Whether a body with this id and this length is a hashes message of right size (BEP 52).
pub fn is_hashes(id: u8, len: u32) -> bool
    ensures { IsTrue result ↔ ((id ≡ hashes_id) × IsHashesSize len) }
{
    id == Kind::Hashes.id() && Kind::Hashes.takes(len)
}

/// The frame of a head, out of the bytes that are kept of its body after the id.
pub(crate) fn frame_of(head: Head, kept: &[u8]) -> Frame<'_>
    requires held { (body : List ℕ) × IsBodyWithHead head kept.now body }
    ensures { (body : List ℕ) → IsBodyWithHead head kept.now body → Means body result }
{
    match head {
        Head::KeepAlive => Frame::Message(Message::KeepAlive),
        Head::Kept { kind, len } => Frame::Message(message_of(kind, &kept[..len as usize - 1])),
        Head::BadSize { id, len } => Frame::BadSize { id, len },
        Head::Other { id, len } => Frame::Message(Message::Other { id, len }),
    }
}

/// What a body means. A block and hashes are lent from the body itself, and no memory is taken.
/// Condition: its length fits the four bytes of a frame's length (BEP 3, "peer messages").
pub fn frame_in(body: &[u8]) -> Frame<'_>
    requires { IsBody body.now }
    ensures { Means body.now result }
{
    match body.split_first() {
        None => Frame::Message(Message::KeepAlive),
        Some((&id, rest)) => frame_of(Head::of(id, body.len() as u32), rest),
    }
}
