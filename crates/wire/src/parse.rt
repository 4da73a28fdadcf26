//! Numbers, hashes and messages out of the bytes of a body, with no copy of a block or of hashes.
ghost use Rattle.std.specs.Prelude.{◌≡◌, ◌+◌, ◌≤◌, ◌∷◌, ◌++◌, length, drop, take, ◌*◌, ◌%◌, ◌/◌, All};
ghost use Rattle.wire.specs.Kind.{id_of};
ghost use Rattle.wire.specs.Meaning.{IsAsk, IsRightSize, MeansMessage, ask_bytes};
ghost use Rattle.wire.specs.Frames.{four_bytes};
ghost use Rattle.std.specs.List.{flat_map};
ghost use Rattle.std.specs.Simd.{first_chunks};

use crate::kind::{ASK_SIZE, HASH_SIZE, Kind};
use crate::message::{Ask, Message};
use byteorder::{BigEndian, ByteOrder};

// The pieces root, the first field of a hash request, in bytes.
const ROOT: usize = HASH_SIZE as usize;

// The five fields of a hash request, in bytes.
const FIELDS: usize = ASK_SIZE as usize - 1;

/// The message of a body of the right size, from the bytes after its id.
pub(crate) fn message_of(kind: Kind, fields: &[u8]) -> Message<'_>
    requires { IsRightSize (id_of kind) (length fields.now + 1) }
    ensures { MeansMessage (id_of kind ∷ fields.now) result }
{
    match kind {
        Kind::Piece => Message::Piece {
            index: number_at(fields),
            begin: number_at(&fields[4..]),
            block: &fields[8..],
        },
        Kind::Request => Message::Request(ask_at(fields)),
        Kind::Hashes => Message::Hashes {
            ask: ask_at(fields),
            hashes: hashes_of(&fields[FIELDS..]),
        },
        Kind::Reject => Message::Reject(ask_at(fields)),
    }
}

// The five fields that stand at the front of these bytes.
fn ask_at(bytes: &[u8]) -> Ask
    requires { FIELDS ≤ length bytes.now }
    ensures fields { IsAsk result }
    ensures bytes { bytes.now ≡ ask_bytes result ++ drop FIELDS bytes.now }
{
    let mut root = [0u8; ROOT];
    root.copy_from_slice(&bytes[..ROOT]);
    Ask {
        root,
        base: number_at(&bytes[ROOT..]),
        index: number_at(&bytes[ROOT + 4..]),
        length: number_at(&bytes[ROOT + 8..]),
        proof: number_at(&bytes[ROOT + 12..]),
    }
}

/// The number of the first four bytes, big-endian. Condition: there are four.
pub fn number_at(bytes: &[u8]) -> u32
    requires { 4 ≤ length bytes.now }
    ensures { four_bytes result ≡ take 4 bytes.now }
{
    BigEndian::read_u32(bytes)
}

/// The bytes as hashes of 32 bytes, with no copy.
pub(crate) fn hashes_of(bytes: &[u8]) -> &[[u8; 32]]
    requires { length bytes.now % 32 ≡ 0 }
    ensures chunks { result.now ≡ first_chunks 32 (length bytes.now / 32) bytes.now }
    ensures joined { flat_map (λ h. h) result.now ≡ bytes.now }
    ensures each { All (λ h. length h ≡ 32) result.now }
{
    bytes.as_chunks::<32>().0
}
