//! A torrent's piece, laid out for C.

ghost use Rattle.std.specs.Prelude.{◌≤◌, MatchOption};
ghost use Rattle.c_layouts.specs.Places.{IsPieceInfo};
ghost use Rattle.c_layouts.specs.Torrents.{torrent_piece_count};

use hashtree::BLOCK_LENGTH;
use opening::Torrent;

/// A piece of a torrent, laid out for C: how many bytes it has, the file in which it lies, and its
/// first block and its first byte there.
#[repr(C)]
#[derive(Clone, Copy)]
pub struct PieceInfo {
    pub length: u64,
    pub file: u64,
    pub block: u64,
    pub offset: u64,
}

/// A piece, laid out for C; `None` if the torrent has no such piece.
pub fn piece_info(torrent: &Torrent<'_>, index: u32) -> Option<PieceInfo>
    ensures { MatchOption result (torrent_piece_count torrent.now ≤ index)
        (IsPieceInfo torrent.now index) }
{
    torrent.recall_sound();
    match torrent.place(index, 0) {
        None => None,
        Some((file, block)) => {
            let offset = BLOCK_LENGTH * block;
            let left = torrent.files()[file].length - offset;
            Some(PieceInfo {
                length: torrent.piece_length().min(left),
                file: file as u64,
                block,
                offset,
            })
        }
    }
}
