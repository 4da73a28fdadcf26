//! The fields of a frame before its block or its hashes.
ghost use Rattle.std.specs.Prelude.{◌≡◌, ◌+◌, ◌*◌, ◌^◌, ◌<◌, ◌≤◌, [], ◌∷◌, ◌++◌, length};
ghost use Rattle.arrayvec.specs.ArrayVec.{array_vec_len};
ghost use Rattle.wire.specs.Frames.{four_bytes};
ghost use Rattle.wire.specs.Kind.{id_of};
ghost use Rattle.wire.specs.Meaning.{IsAsk, ask_bytes, ask_size, min_piece, piece_id};
ghost use Rattle.wire.specs.Writable.{max_block, max_hashes};

use crate::kind::{ASK_SIZE, HASH_SIZE, Kind, MIN_PIECE};
use crate::message::Ask;
use arrayvec::ArrayVec;
use byteorder::{BigEndian, ByteOrder};

// How many bytes stand before a block or hashes, at most: a length, and the size of a request.
const MAX_FIELDS: usize = 4 + ASK_SIZE as usize;

/// The bytes of a frame before its block or its hashes.
pub(crate) type Fields = ArrayVec<u8, MAX_FIELDS>;

/// The fields of a frame with a block of this length.
pub(crate) fn piece_fields(index: u32, begin: u32, len: u32) -> Fields
    requires { len ≤ max_block }
    ensures fits { (index < 2 ^ 32) × (begin < 2 ^ 32) }
    ensures bytes { result.items
        ≡ four_bytes (min_piece + len) ++ (piece_id ∷ (four_bytes index ++ four_bytes begin)) }
{
    let mut fields = Fields::new();
    put_number(&mut fields, MIN_PIECE + len);
    put(&mut fields, &[Kind::Piece.id()]);
    put_number(&mut fields, index);
    put_number(&mut fields, begin);
    fields
}

/// The fields of a frame with an ask, and with this many hashes.
#[tactic(auto, unfolding(crate::specs::Meaning::ask_bytes))]
pub(crate) fn ask_fields(kind: Kind, ask: &Ask, hashes: u32) -> Fields
    requires { hashes ≤ max_hashes }
    ensures fits { IsAsk ask.now }
    ensures bytes { result.items
        ≡ four_bytes (ask_size + hashes * 32) ++ (id_of kind ∷ ask_bytes ask.now) }
{
    let mut fields = Fields::new();
    put_number(&mut fields, ASK_SIZE + hashes * HASH_SIZE);
    put(&mut fields, &[kind.id()]);
    put(&mut fields, &ask.root);
    put_number(&mut fields, ask.base);
    put_number(&mut fields, ask.index);
    put_number(&mut fields, ask.length);
    put_number(&mut fields, ask.proof);
    fields
}

// Puts a number at the end, as four bytes.
#[tactic(auto, unfolding(crate::specs::Frames::four_bytes))]
fn put_number(fields: &mut Fields, number: u32)
    requires { array_vec_len fields.old + 4 ≤ MAX_FIELDS }
    ensures bytes { fields.new.items ≡ fields.old.items ++ four_bytes number }
    ensures len { array_vec_len fields.new ≡ array_vec_len fields.old + 4 }
{
    let mut bytes = [0u8; 4];
    BigEndian::write_u32(&mut bytes, number);
    put(fields, &bytes);
}

// Puts these bytes at the end.
fn put(fields: &mut Fields, bytes: &[u8])
    requires { array_vec_len fields.old + length bytes.now ≤ MAX_FIELDS }
    ensures bytes { fields.new.items ≡ fields.old.items ++ bytes.now }
    ensures len { array_vec_len fields.new ≡ array_vec_len fields.old + length bytes.now }
{
    fields.try_extend_from_slice(bytes).unwrap();
}
