//! The pieces of a session that are whole, as a bitfield (BEP 3, "bitfield").

ghost use Rattle.std.specs.Prelude.{◌≡◌, ◌≢◌, ◌↔◌, ◌<◌, length, slice_get, IsTrue, Some};
ghost use Rattle.session.specs.Session.{TreeState};
ghost use Rattle.c_layouts.specs.Marks.{AreLeavesMarked, HasBitfield, IsWholePiece, TellWholePieces, bitfield_size};

use crate::bits::set_bit;
use crate::piece_info::piece_info;
use crate::status::{DONE, TOO_SMALL};
use crate::torrent_info::count_pieces;
use hashtree::BLOCK_LENGTH;
use node_maps::Paged;
use session::OwnedSession;

/// The status of the bitfield of a session's pieces, which goes to the front of the room, and how
/// many bytes it has. If the room has fewer, nothing goes there. A bit is set exactly if each block
/// of its piece is marked.
pub fn write_bitfield(session: &OwnedSession<Paged>, room: &mut [u8], size: &mut u64) -> u32
    ensures done { HasBitfield session.now result room.old room.new size.new }
    ensures unwritten { result ≢ 0 → room.new ≡ room.old }
{
    let bytes = count_pieces(session.torrent()).div_ceil(8) as usize;
    *size = bytes as u64;
    if bytes > room.len() {
        return TOO_SMALL;
    }
    write_bits(session, &mut room[..bytes]);
    DONE
}

// Sets the bits of the pieces that are whole, and clears the others.
fn write_bits(session: &OwnedSession<Paged>, bits: &mut [u8])
    requires { length bits.old ≡ bitfield_size session.now.torrent }
    ensures { TellWholePieces session.now bits.new }
{
    session.torrent().recall_sound();
    bits.fill(0);
    let count = count_pieces(session.torrent()) as u32;
    'pieces: for piece in 0..count {
        if is_whole_piece(session, piece) {
            set_bit(bits, piece as usize);
        }
    }
}

// Whether the torrent has this piece, and each of its blocks is marked.
fn is_whole_piece(session: &OwnedSession<Paged>, piece: u32) -> bool
    ensures { IsTrue result ↔ IsWholePiece session.now piece }
{
    let torrent = session.torrent();
    torrent.recall_sound();
    session.recall_closed_trees();
    let Some(info) = piece_info(torrent, piece) else {
        return false;
    };
    let Some(tree) = torrent.tree_of(info.file as usize) else {
        return false;
    };
    let end = info.block + info.length.div_ceil(BLOCK_LENGTH);
    are_marked(session, tree, info.block, end)
}

// Whether each leaf of a tree from one up to another is marked.
fn are_marked(session: &OwnedSession<Paged>, tree: usize, from: u64, to: u64) -> bool
    requires { tree < length session.now.torrent.trees }
    ensures { (s : TreeState) → slice_get session.now.trees tree ≡ Some s
        → (IsTrue result ↔ AreLeavesMarked s from to) }
{
    'leaves: for block in from..to {
        if !session.is_marked(tree, block) {
            return false;
        }
    }
    true
}
