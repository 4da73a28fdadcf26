//! The memory of a check: what it takes before it does anything else, and its buffers.
ghost use Rattle.std.specs.Prelude.{IfOk, ◌≡◌, ◌*◌, ◌≤◌, length};
ghost use Rattle.std.specs.Vec.{vec_capacity};
ghost use Rattle.hashtree.specs.Bits.{AreClear};

use crate::telling::Telling;
use folders::FileVerdict;
use opening::Torrent;
use pieces::PieceBuffer;
use std::alloc::{AllocError, Global};

/// The memory that a check takes before it does anything else.
#[derive(Drop)]
pub(crate) struct Room {
    /// No verdict yet, and room for one on each file.
    pub(crate) files: Vec<FileVerdict>,
    /// Room for a bit for each piece of any file, if they are told of.
    pub(crate) bits: Vec<u8>,
}

impl Room {
    ghost use Rattle.parts.specs.Rooms.{IsRoomFor};

    /// Room for the check of a torrent's files of which this is told.
    pub(crate) fn of(
        alloc: Global,
        torrent: &Torrent<'_>,
        telling: Telling,
    ) -> Result<Room, AllocError>
        ensures { IfOk result (IsRoomFor torrent.now telling) }
    {
        let files = Vec::with_capacity(alloc, torrent.files().len())?;
        let bits = telling.bits(alloc, torrent)?;
        Ok(Room { files, bits })
    }
}

/// A buffer for the files of a torrent: of a hybrid, for a piece in each lane. None is refused.
pub(crate) fn buffer_of(alloc: Global, torrent: &Torrent<'_>) -> PieceBuffer {
    match torrent.v1() {
        Some(_) => PieceBuffer::of_pieces(alloc, torrent.piece_length()),
        None => PieceBuffer::of_blocks(alloc),
    }
}

/// Makes a bitmap one of this many pieces in which no bit is set, as far as its room goes. It takes
/// no memory.
pub(crate) fn clear_bits(bits: &mut Vec<u8>, pieces: u64)
    ensures clear { AreClear bits.new.items }
    ensures room { pieces ≤ 8 * vec_capacity bits.old → pieces ≤ 8 * length bits.new.items }
    ensures capacity { vec_capacity bits.new ≡ vec_capacity bits.old }
{
    bits.clear();
    let wanted = pieces.div_ceil(8).min(bits.capacity() as u64);
    'bytes: for _byte in 0..wanted {
        bits.push_reserved(0);
    }
}
