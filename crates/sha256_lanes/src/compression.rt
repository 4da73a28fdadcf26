//! A block taken into the hash values of each message (FIPS 180-4, 6.2.2).

ghost use Rattle.std.specs.Prelude.{◌≡◌, ℕ, ◌*◌, ◌<◌, List};
ghost use Rattle.sha2.specs.Sha256.{add_state, compress, initial_hash_256, padding, word_at};
ghost use Rattle.lanes.specs.Lanes.{word_in};
ghost use Rattle.sha256_lanes.specs.Lanes.{sha256_state_in};
ghost use Rattle.lanes.specs.declared.words.TheConstants.{LANES};

use crate::rounds::{Ring, State, four_block_rounds, four_later_rounds, four_padding_rounds};
use lanes::{same, sum};

/// The hash values before the first block (FIPS 180-4, 5.3.3).
#[inline(always)]
pub(crate) fn initial_state() -> State
    ensures { (j : ℕ) → j < LANES → sha256_state_in j result ≡ initial_hash_256 }
{
    [
        same(0x6a09e667),
        same(0xbb67ae85),
        same(0x3c6ef372),
        same(0xa54ff53a),
        same(0x510e527f),
        same(0x9b05688c),
        same(0x1f83d9ab),
        same(0x5be0cd19),
    ]
}

// The words of two states, each added to its like.
#[inline(always)]
fn added(x: &State, y: &State) -> State
    ensures { (j : ℕ) → j < LANES
        → sha256_state_in j result ≡ add_state (sha256_state_in j x.now) (sha256_state_in j y.now) }
{
    [
        sum(x[0], y[0]),
        sum(x[1], y[1]),
        sum(x[2], y[2]),
        sum(x[3], y[3]),
        sum(x[4], y[4]),
        sum(x[5], y[5]),
        sum(x[6], y[6]),
        sum(x[7], y[7]),
    ]
}

/// Takes a block of each message, as its sixteen words.
#[inline(always)]
pub(crate) fn compress(state: &mut State, words: Ring)
    ensures { (j : ℕ) → j < LANES → (b : List ℕ)
        → ((k : ℕ) → k < 16 → word_in words k j ≡ word_at b (4 * k))
        → sha256_state_in j state.new ≡ compress (sha256_state_in j state.old) b }
{
    let mut ring = words;
    let mut v = four_block_rounds(&ring, *state, 0);
    v = four_block_rounds(&ring, v, 4);
    v = four_block_rounds(&ring, v, 8);
    v = four_block_rounds(&ring, v, 12);
    // Sixteen rounds a turn: so each word's place in the ring is a constant.
    'turns: for turn in 1..4 {
        v = four_later_rounds(&mut ring, v, turn, 0);
        v = four_later_rounds(&mut ring, v, turn, 4);
        v = four_later_rounds(&mut ring, v, turn, 8);
        v = four_later_rounds(&mut ring, v, turn, 12);
    }
    *state = added(state, &v);
}

/// Takes the block that pads a message of 64 bytes.
#[inline(always)]
pub(crate) fn compress_padding(state: &mut State)
    ensures { (j : ℕ) → j < LANES
        → sha256_state_in j state.new ≡ compress (sha256_state_in j state.old) (padding 64) }
{
    let mut v = *state;
    'turns: for turn in 0..16 {
        v = four_padding_rounds(v, 4 * turn);
    }
    *state = added(state, &v);
}
