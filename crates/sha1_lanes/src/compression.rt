//! A block taken into the hash values of each message (FIPS 180-4, 6.1.2).

ghost use Rattle.std.specs.Prelude.{◌≡◌, ℕ, ◌*◌, ◌<◌, List};
ghost use Rattle.sha1.specs.Sha1.{IsRoundsAt, add_state, compress, initial_hash, word_at};
ghost use Rattle.lanes.specs.Lanes.{lane, word_in};
ghost use Rattle.sha1_lanes.specs.Batches.{state_in};
ghost use Rattle.lanes.specs.declared.words.TheConstants.{LANES};

use crate::rounds::{
    Ring, State, five_last_rounds, five_majority_rounds, five_parity_rounds, four_block_rounds,
    four_choose_rounds,
};
use lanes::{LANES, same, sum};

/// The hash values before the first block (FIPS 180-4, 5.3.1).
#[inline(always)]
pub(crate) fn initial_state() -> State
    ensures { (j : ℕ) → j < LANES → state_in j result ≡ initial_hash }
{
    [
        same(0x67452301),
        same(0xEFCDAB89),
        same(0x98BADCFE),
        same(0x10325476),
        same(0xC3D2E1F0),
    ]
}

// The words of two states, each added to its like.
#[inline(always)]
fn added(x: &State, y: &State) -> State
    ensures { (j : ℕ) → j < LANES
        → state_in j result ≡ add_state (state_in j x.now) (state_in j y.now) }
{
    [
        sum(x[0], y[0]),
        sum(x[1], y[1]),
        sum(x[2], y[2]),
        sum(x[3], y[3]),
        sum(x[4], y[4]),
    ]
}

// The rounds whose words are the block's.
#[inline(always)]
fn block_rounds(ring: &Ring, v: State) -> State
    ensures { (j : ℕ) → j < LANES → (b : List ℕ)
        → ((k : ℕ) → k < 16 → word_in ring.now k j ≡ word_at b (4 * k))
        → IsRoundsAt b (state_in j v) (lane j ring.now) (state_in j result) 16 }
{
    let v = four_block_rounds(ring, v, 0);
    let v = four_block_rounds(ring, v, 4);
    let v = four_block_rounds(ring, v, 8);
    four_block_rounds(ring, v, 12)
}

// The rounds from 20 to 39.
#[inline(always)]
fn parity_rounds(ring: &mut Ring, v: State) -> State
    ensures { (j : ℕ) → j < LANES → (b h : List ℕ)
        → IsRoundsAt b h (lane j ring.old) (state_in j v) 20
        → IsRoundsAt b h (lane j ring.new) (state_in j result) 40 }
{
    let v = five_parity_rounds(ring, v, 20);
    let v = five_parity_rounds(ring, v, 25);
    let v = five_parity_rounds(ring, v, 30);
    five_parity_rounds(ring, v, 35)
}

// The rounds from 40 to 59.
#[inline(always)]
fn majority_rounds(ring: &mut Ring, v: State) -> State
    ensures { (j : ℕ) → j < LANES → (b h : List ℕ)
        → IsRoundsAt b h (lane j ring.old) (state_in j v) 40
        → IsRoundsAt b h (lane j ring.new) (state_in j result) 60 }
{
    let v = five_majority_rounds(ring, v, 40);
    let v = five_majority_rounds(ring, v, 45);
    let v = five_majority_rounds(ring, v, 50);
    five_majority_rounds(ring, v, 55)
}

// The rounds from 60 to 79.
#[inline(always)]
fn last_rounds(ring: &mut Ring, v: State) -> State
    ensures { (j : ℕ) → j < LANES → (b h : List ℕ)
        → IsRoundsAt b h (lane j ring.old) (state_in j v) 60
        → IsRoundsAt b h (lane j ring.new) (state_in j result) 80 }
{
    let v = five_last_rounds(ring, v, 60);
    let v = five_last_rounds(ring, v, 65);
    let v = five_last_rounds(ring, v, 70);
    five_last_rounds(ring, v, 75)
}

/// Takes a block of each message, as its sixteen words.
// Not inlined: so its parts have one caller, and are inlined into it.
#[inline(never)]
pub(crate) fn compress(state: &mut State, words: Ring)
    ensures { (j : ℕ) → j < LANES → (b : List ℕ)
        → ((k : ℕ) → k < 16 → word_in words k j ≡ word_at b (4 * k))
        → state_in j state.new ≡ compress (state_in j state.old) b }
{
    let mut ring = words;
    let v = block_rounds(&ring, *state);
    let v = four_choose_rounds(&mut ring, v, 16);
    let v = parity_rounds(&mut ring, v);
    let v = majority_rounds(&mut ring, v);
    let v = last_rounds(&mut ring, v);
    *state = added(state, &v);
}
