//! Clients that take each piece as a row of whole blocks fill the last block of a file up with
//! zeros. BEP 52 has no such block, but a message can be read as if the zeros were not there.
ghost use Rattle.std.specs.Prelude.{◌≡◌, ◌⊎◌, ◌↔◌, ℕ, All, IsTrue, IfSome, Some, take};
ghost use Rattle.padded.specs.Padding.{HasLeft, IsPaddedTo, IsUnpadded, IsWithoutPadding};

use hashtree::BLOCK_LENGTH;
use opening::Torrent;
use wire::Message;

/// The message without the zeros that its block field has behind the end of a file: if it stands at
/// the place of a block from which fewer bytes of the file are left than it carries, but as many
/// blocks, and all bytes behind these are zeros. Any other message stays as it is. Takes no memory.
pub fn without_padding<'a>(torrent: &Torrent<'_>, message: &Message<'a>) -> Message<'a>
    ensures { IsWithoutPadding torrent.now message.now result }
{
    match *message {
        Message::Piece {
            index,
            begin,
            block,
        } => Message::Piece {
            index,
            begin,
            block: cut(torrent, index, begin, block),
        },
        other => other,
    }
}

// What is the file's of the bytes at this place.
fn cut<'a>(torrent: &Torrent<'_>, index: u32, begin: u32, bytes: &'a [u8]) -> &'a [u8]
    ensures { IsUnpadded torrent.now index begin bytes.now result.now }
{
    match left_at(torrent, index, begin) {
        None => bytes,
        Some(left) => first_bytes(bytes, left),
    }
}

// The first bytes, this many, if they are padded to that, and else all.
fn first_bytes<'a>(bytes: &'a [u8], left: u64) -> &'a [u8]
    ensures { (IsPaddedTo bytes.now left × (result.now ≡ take left bytes.now))
        ⊎ ((¬ IsPaddedTo bytes.now left) × (result.now ≡ bytes.now)) }
{
    if is_padded_to(bytes, left) {
        &bytes[..left as usize]
    } else {
        bytes
    }
}

// How many bytes of the file are left from the block at this place, if one begins there.
fn left_at(torrent: &Torrent<'_>, index: u32, begin: u32) -> Option<u64>
    ensures found { IfSome result (HasLeft torrent.now index begin) }
    ensures only { (left : ℕ) → HasLeft torrent.now index begin left → result ≡ Some left }
{
    match torrent.place(index, begin) {
        None => None,
        Some((file, block)) => Some(torrent.files()[file].length - block * BLOCK_LENGTH),
    }
}

// Whether the bytes are more than this many, but as many blocks, and end in zeros.
fn is_padded_to(bytes: &[u8], left: u64) -> bool
    ensures { IsTrue result ↔ IsPaddedTo bytes.now left }
{
    let size = bytes.len() as u64;
    left < size
        && size.div_ceil(BLOCK_LENGTH) <= left.div_ceil(BLOCK_LENGTH)
        && are_zeros(&bytes[left as usize..])
}

fn are_zeros(bytes: &[u8]) -> bool
    ensures { IsTrue result ↔ All (λ byte. byte ≡ 0) bytes.now }
{
    bytes.iter().all(|byte| *byte == 0)
}
