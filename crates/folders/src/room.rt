//! A room for small files that are read whole, one after the other, to be hashed together.

ghost use Rattle.std.specs.Prelude.{◌≡◌, ◌⊎◌, ◌<◌, vec_len};

use crate::file_reader::FileReader;
use crate::taking::fill;
use benc::{DeviceFault, Source};
use pieces::room_of_zeros;
use std::alloc::Global;

// Bytes of small files that are held together: 32 blocks.
const HELD: usize = 524_288;

/// Room for this many small files that are held together, 524,288 bytes; none for a single file, or
/// if memory for it is refused.
pub fn room_for_files(alloc: Global, files: usize) -> Vec<u8>
    ensures room { (vec_len result ≡ 524288) ⊎ (vec_len result ≡ 0) }
    ensures single { files < 2 → vec_len result ≡ 0 }
{
    if files < 2 {
        return Vec::new(alloc);
    }
    room_of_zeros(alloc, HELD).unwrap_or(Vec::new(alloc))
}

/// Reads a file of a stated size into a room, and one byte more to see the file's end. It answers
/// how many bytes came.
#[derive(Drop)]
pub struct RoomReader {
    /// The room.
    pub room: Vec<u8>,
    /// The byte of the room from which on the file stands.
    pub at: usize,
    /// The size of the file in bytes. Condition: there is room for it and one byte more.
    pub size: usize,
}

impl<F: Source> FileReader<F, Result<usize, DeviceFault>> for RoomReader {
    ghost use Rattle.folders.specs.Rooms.{FitsIn, FillsRoom};

    ghost may_read = { FitsIn };

    ghost reads = { FillsRoom };

    fn read(&mut self, file: &mut F, _buffer: &mut [u8]) -> Result<usize, DeviceFault> {
        fill(file, &mut self.room[self.at..self.at + self.size + 1])
    }
}
