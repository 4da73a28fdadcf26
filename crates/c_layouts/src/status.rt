//! The numbers that calls answer.

ghost use Rattle.std.specs.Prelude.{◌≡◌, ◌≢◌, ◌+◌};
ghost use Rattle.partial_tree.specs.Names.{hash_refusal_number, block_refusal_number};
ghost use Rattle.c_layouts.specs.Statuses.{HasHashesStatus, HasBlockStatus, HasPieceStatus, IsAnswer, piece_status};

use partial_tree::{BlockRefusal, HashRefusal, PieceRefusal};

/// The call did what it says.
pub const DONE: u32 = 0;

/// The handle holds nothing, or something else.
pub const WRONG_HANDLE: u32 = 1;

/// Memory was refused.
pub const NO_MEMORY: u32 = 2;

/// A file has more than 2^46 bytes.
pub const TOO_LONG: u32 = 3;

/// An empty file has no root.
pub const NO_ROOT: u32 = 4;

/// The torrent has no such tree, block or file.
pub const NO_SUCH: u32 = 5;

/// There is nothing to write: the leaf is known, or the ask cannot be answered.
pub const NOTHING: u32 = 6;

/// The caller's room is too small.
pub const TOO_SMALL: u32 = 7;

/// A message of a known kind has a wrong size.
pub const BAD_SIZE: u32 = 8;

/// Bytes of the file are still to come.
pub const TOO_SHORT: u32 = 9;

/// A piece is not the torrent's.
pub const BAD_PIECE: u32 = 10;

/// The digest of a block is held until the block can be proved.
pub const HELD: u32 = 11;

/// Refusal n of a torrent is this plus n.
pub const TORRENT: u32 = 100;

// Refusal Hn of a hashes message is this plus n.
const HASHES: u32 = 200;

// Refusal Pn of a block is this plus n.
const BLOCK: u32 = 300;

/// The status of a hashes message, and how many places are newly known.
pub fn status_of_hashes(answer: Result<u64, HashRefusal>, places: &mut u64) -> u32
    ensures done { HasHashesStatus answer result places.new }
    ensures unwritten { result ≢ 0 → places.new ≡ places.old }
{
    match answer {
        Ok(count) => {
            *places = count;
            DONE
        }
        Err(refusal) => refused_hashes(refusal),
    }
}

/// The status of a block, and which it is.
pub fn status_of_block(
    answer: Result<(usize, u64), BlockRefusal>,
    file: &mut u64,
    block: &mut u64,
) -> u32
    ensures done { HasBlockStatus answer result file.new block.new }
    ensures unwritten { result ≢ 0 → (file.new ≡ file.old) × (block.new ≡ block.old) }
{
    match answer {
        Ok((in_file, number)) => {
            *file = in_file as u64;
            *block = number;
            DONE
        }
        Err(refusal) => refused_block(refusal),
    }
}

/// The status of a whole piece, and the file and its first block of the piece.
pub fn status_of_piece(
    answer: Result<(usize, u64), PieceRefusal>,
    file: &mut u64,
    block: &mut u64,
) -> u32
    ensures done { HasPieceStatus answer result file.new block.new }
    ensures unwritten { result ≢ 0 → (file.new ≡ file.old) × (block.new ≡ block.old) }
{
    match answer {
        Ok((in_file, number)) => {
            *file = in_file as u64;
            *block = number;
            DONE
        }
        Err(refusal) => refused_piece(refusal),
    }
}

/// The status of a question: whether it is so.
pub fn status_of_answer(holds: bool) -> u32
    ensures { IsAnswer holds result }
{
    if holds { DONE } else { NOTHING }
}

/// The status of a refusal of hashes.
pub fn refused_hashes(refusal: HashRefusal) -> u32
    ensures { result ≡ 200 + hash_refusal_number refusal }
{
    HASHES + refusal.number()
}

/// The status of a refusal of a whole piece: that of a block for the same reason, or that memory
/// was refused.
pub fn refused_piece(refusal: PieceRefusal) -> u32
    ensures { result ≡ piece_status refusal }
{
    match refusal {
        PieceRefusal::BadPlace => refused_block(BlockRefusal::BadPlace),
        PieceRefusal::BadSize => refused_block(BlockRefusal::BadSize),
        PieceRefusal::Unproved => refused_block(BlockRefusal::Unproved),
        PieceRefusal::NoMemory => NO_MEMORY,
        PieceRefusal::BadPiece => refused_block(BlockRefusal::BadBlock),
    }
}

/// The status of a refusal of a block.
pub fn refused_block(refusal: BlockRefusal) -> u32
    ensures { result ≡ 300 + block_refusal_number refusal }
{
    BLOCK + refusal.number()
}
