//! The end of a message of any length: its last bytes, and the padding (FIPS 180-4, 5.1.1).

ghost use Rattle.std.specs.Prelude.{◌≡◌, ℕ, ◌-◌, ◌*◌, ◌/◌, ◌%◌, ◌^◌, ◌<◌, ◌∷◌, ◌++◌, List, length, replicate, take};
ghost use Rattle.std.specs.Int.{w64, to_be_bytes};
ghost use Rattle.sha1.specs.Sha1.{compress, hash_after, padded_message};
ghost use Rattle.sha1_lanes.specs.Batches.{state_in};
ghost use Rattle.lanes.specs.declared.words.TheConstants.{LANES};

use crate::compression::compress;
use crate::rounds::State;
use lanes::same_block;

// How many bytes of the last block come before the length.
const ROOM: usize = 56;

/// Takes the last bytes of a message, and its padding, into each: `size` is how many bytes it has,
/// modulo 2^64. Conditions: they are fewer than 64.
pub(crate) fn take_ending(state: &mut State, rest: &[u8], size: u64)
    requires { length rest.now < 64 }
    ensures { (j : ℕ) → j < LANES → (m : List ℕ) → length m % 64 ≡ 0
        → size ≡ length (m ++ rest.now) % 2 ^ 64
        → state_in j state.old ≡ hash_after m (length m / 64)
        → state_in j state.new ≡ hash_after (padded_message (m ++ rest.now))
        (length (padded_message (m ++ rest.now)) / 64) }
{
    let mut block = begun_block(rest);
    if rest.len() >= ROOM {
        take_block(state, &block);
        block = [0; 64];
    }
    put_length(&mut block, size);
    take_block(state, &block);
}

// The last bytes of a message, a bit, and zeros.
fn begun_block(rest: &[u8]) -> [u8; 64]
    requires { length rest.now < 64 }
    ensures { result ≡ rest.now ++ 0x80 ∷ replicate (63 - length rest.now) 0 }
{
    let mut block = [0; 64];
    block[..rest.len()].copy_from_slice(rest);
    block[rest.len()] = 0x80;
    block
}

// Puts the number of a message's bits at the end of a block.
fn put_length(block: &mut [u8; 64], size: u64)
    ensures { (n : ℕ) → size ≡ n % 2 ^ 64
        → block.new ≡ take ROOM block.old ++ to_be_bytes w64 (n * 8 % 2 ^ 64) }
{
    block[ROOM..].copy_from_slice(&size.wrapping_mul(8).to_be_bytes());
}

// Takes a block into each message.
fn take_block(state: &mut State, block: &[u8; 64])
    ensures { (j : ℕ) → j < LANES
        → state_in j state.new ≡ compress (state_in j state.old) block.now }
{
    compress(state, same_block(block));
}
