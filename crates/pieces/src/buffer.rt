//! The buffer through which files are read.

ghost use Rattle.std.specs.Prelude.{◌≡◌, ◌*◌, ◌/◌, ◌-◌, ◌^◌, ◌<◌, ◌≤◌, ◌↔◌, IfSome, IsTrue, length, min};
ghost use Rattle.std.specs.Vec.{vec_capacity};
ghost use Rattle.lanes.specs.declared.words.TheConstants.{LANES};

use crate::room::room_of_zeros;
use lanes::LANES;
use std::alloc::Global;

// As many bytes as a block has.
const BLOCK: usize = 16_384;

// The most blocks that room is asked for: 32 MiB.
const MOST: u64 = 2048;

// What there is without memory: a quarter of a block, since it stands on the stack.
const LEAST: usize = BLOCK / 4;

/// A buffer through which files are read, with room for what is hashed side by side. If memory for
/// that is refused, it has room for 4,096 bytes.
#[derive(Drop)]
pub struct PieceBuffer {
    room: Vec<u8>,
    least: [u8; LEAST],
}

impl PieceBuffer {
    ghost use Rattle.pieces.specs.Buffers.{buffer_room};

    /// A buffer for a block in each lane, which takes 131,072 bytes of memory at most.
    pub fn of_blocks(alloc: Global) -> PieceBuffer
        ensures { buffer_room result ≤ 131072 }
    {
        PieceBuffer {
            room: room_for(alloc, LANES).unwrap_or(Vec::new(alloc)),
            least: [0; LEAST],
        }
    }

    /// A buffer for a piece of this length in each lane. If that is more than 32 MiB, or memory for
    /// it is refused, it is one for a block in each.
    pub fn of_pieces(alloc: Global, piece_length: u64) -> PieceBuffer
        ensures { buffer_room result ≤ 33554432 }
    {
        if !fits_in_lanes(piece_length) {
            return PieceBuffer::of_blocks(alloc);
        }
        match room_for(alloc, blocks_in_lanes(piece_length) as usize) {
            Some(room) => PieceBuffer {
                room,
                least: [0; LEAST],
            },
            None => PieceBuffer::of_blocks(alloc),
        }
    }

    /// The buffer's bytes. It is not empty.
    pub fn as_mut_slice(&mut self) -> &mut [u8]
        ensures { 0 < length result.now }
    {
        if self.room.is_empty() {
            return &mut self.least;
        }
        self.room.as_mut_slice()
    }
}

/// Whether a buffer may have a piece of this length in each lane: that is at most 32 MiB.
pub fn fits_in_lanes(piece_length: u64) -> bool
    ensures { IsTrue result ↔ (LANES * (piece_length / 16384) ≤ 2048) }
{
    blocks_in_lanes(piece_length) <= MOST
}

// How many blocks a piece of this length in each lane has.
fn blocks_in_lanes(piece_length: u64) -> u64
    ensures { result ≡ min (piece_length / 16384 * LANES) (2 ^ 64 - 1) }
{
    (piece_length / BLOCK as u64).saturating_mul(LANES as u64)
}

// Room for this many blocks, if memory for them is given.
fn room_for(alloc: Global, blocks: usize) -> Option<Vec<u8>>
    ensures { IfSome result (λ room. vec_capacity room ≡ blocks * 16384) }
{
    room_of_zeros(alloc, blocks.checked_mul(BLOCK)?)
}
