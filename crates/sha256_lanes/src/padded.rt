//! The blocks of messages of any lengths, their padding included (FIPS 180-4, 5.1.1).

ghost use Rattle.std.specs.Prelude.{◌≡◌, ℕ, ◌+◌, ◌*◌, ◌^◌, ◌<◌, ◌≤◌, length, slice_index};
ghost use Rattle.sha2.specs.Sha256.{padded_message};
ghost use Rattle.sha256_lanes.specs.Lanes.{padded_block_count};
ghost use Rattle.lanes.specs.declared.words.TheConstants.{LANES};

use lanes::LANES;

/// How many bytes a block of each message has.
pub(crate) const ROW: usize = 64 * LANES;

/// How many blocks a message of this size has, its padding included.
#[inline(always)]
pub(crate) fn block_count(size: usize) -> usize
    requires { size < 2 ^ 63 }
    ensures { result ≡ padded_block_count size }
{
    (size + 8) / 64 + 1
}

// A byte of the message and its padding: a bit, zeros, and the number of the message's bits.
fn padded_byte(message: &[u8], at: usize) -> u8
    requires { at < 64 * padded_block_count (length message.now) }
    ensures { result ≡ slice_index (padded_message message.now) at }
{
    let size = message.len();
    let end = 64 * block_count(size);
    if at < size {
        message[at]
    } else if at == size {
        0x80
    } else if at + 8 < end {
        0
    } else {
        (size as u64).wrapping_mul(8).to_be_bytes()[at + 8 - end]
    }
}

// Puts a block that is the message's alone at this place of a row.
#[inline(always)]
fn put_whole_block(row: &mut [u8; ROW], place: usize, message: &[u8], block: usize)
    requires place { place < LANES }
    requires whole { 64 * block + 64 ≤ length message.now }
    ensures here { (i : ℕ) → i < 64 → slice_index row.new (64 * place + i)
        ≡ slice_index (padded_message message.now) (64 * block + i) }
    ensures before { (i : ℕ) → i < 64 * place → slice_index row.new i ≡ slice_index row.old i }
{
    row[64 * place..64 * place + 64].copy_from_slice(&message[64 * block..64 * block + 64]);
}

// Puts a block that has padding at this place of a row.
#[inline(never)]
fn put_padded_block(row: &mut [u8; ROW], place: usize, message: &[u8], block: usize)
    requires place { place < LANES }
    requires block { block < padded_block_count (length message.now) }
    ensures here { (i : ℕ) → i < 64 → slice_index row.new (64 * place + i)
        ≡ slice_index (padded_message message.now) (64 * block + i) }
    ensures before { (i : ℕ) → i < 64 * place → slice_index row.new i ≡ slice_index row.old i }
{
    'bytes: for i in 0..64 {
        row[64 * place + i] = padded_byte(message, 64 * block + i);
    }
}

/// Puts a block of the message and its padding at this place of a row, if there is one.
#[inline(always)]
pub(crate) fn put_block(row: &mut [u8; ROW], place: usize, message: &[u8], block: usize)
    requires { place < LANES }
    ensures here { (i : ℕ) → i < 64 → block < padded_block_count (length message.now)
        → slice_index row.new (64 * place + i)
        ≡ slice_index (padded_message message.now) (64 * block + i) }
    ensures before { (i : ℕ) → i < 64 * place → slice_index row.new i ≡ slice_index row.old i }
{
    if block < message.len() / 64 {
        put_whole_block(row, place, message, block);
    } else if block < block_count(message.len()) {
        put_padded_block(row, place, message, block);
    }
}
