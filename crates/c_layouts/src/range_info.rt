//! Bytes of a file as bytes of pieces, laid out for C.

ghost use Rattle.std.specs.Prelude.{MatchOption};
ghost use Rattle.c_layouts.specs.Places.{HasByte, IsRangeInfo};

use opening::Torrent;

/// Where bytes of a file begin, laid out for C: their first piece, where they begin in it, and how
/// many they are.
#[repr(C)]
#[derive(Clone, Copy)]
pub struct RangeInfo {
    pub piece: u64,
    pub begin: u64,
    pub length: u64,
}

/// The bytes of a file from an offset on, at most this many and none past its end, laid out for C;
/// `None` if the torrent has no such file, or that file no byte there.
pub fn range_info(
    torrent: &Torrent<'_>,
    number: usize,
    offset: u64,
    length: u64,
) -> Option<RangeInfo>
    ensures { MatchOption result (¬ HasByte torrent.now number offset)
        (IsRangeInfo torrent.now number offset length) }
{
    torrent.recall_sound();
    let Some(file) = torrent.files().get(number) else {
        return None;
    };
    if offset >= file.length {
        return None;
    }
    let piece_length = torrent.piece_length();
    Some(RangeInfo {
        piece: file.first_piece + offset / piece_length,
        begin: offset % piece_length,
        length: length.min(file.length - offset),
    })
}
