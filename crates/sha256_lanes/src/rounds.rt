//! The rounds over a block (FIPS 180-4, 6.2.2), for each message.

ghost use Rattle.std.specs.Prelude.{◌≡◌, ℕ, ◌+◌, ◌*◌, ◌<◌, ◌≤◌, List, slice_index};
ghost use Rattle.sha2.specs.Sha256.{IsRoundsAt, IsWindow, padding, round, rounds, schedule, window_word};
ghost use Rattle.lanes.specs.Lanes.{lane};
ghost use Rattle.sha256_lanes.specs.Lanes.{sha256_state_in};
ghost use Rattle.lanes.specs.declared.words.TheConstants.{LANES};

use crate::constants::{PADDING_SCHEDULE, ROUND_WORDS};
use crate::functions::{lower_sigma0, lower_sigma1, upper_sigma0, upper_sigma1};
use lanes::{Block, Words, choice, majority, same, sum};

/// The hash value of each message, or its working variables a to h.
pub(crate) type State = [Words; 8];

/// Sixteen words of the schedule of each message: word `t` stands at place `t % 16`.
pub(crate) type Ring = Block;

/// One round, with its constant and a word of each schedule.
#[inline(always)]
pub(crate) fn round(v: State, constant: u32, word: Words) -> State
    ensures { (j : ℕ) → j < LANES
        → sha256_state_in j result ≡ round (sha256_state_in j v) constant (slice_index word j) }
{
    let [a, b, c, d, e, f, g, h] = v;
    let sigma1 = upper_sigma1(e);
    let chosen = choice(e, f, g);
    let two = sum(h, sigma1);
    let three = sum(two, chosen);
    let four = sum(three, same(constant));
    let temp1 = sum(four, word);
    let sigma0 = upper_sigma0(a);
    let most = majority(a, b, c);
    let temp2 = sum(sigma0, most);
    [sum(temp1, temp2), a, b, c, sum(d, temp1), e, f, g]
}

/// The word of each schedule that comes next, if it belongs at this place of the ring.
#[inline(always)]
fn next_word(ring: &Ring, place: usize) -> Words
    requires { place < 16 }
    ensures { (j : ℕ) → j < LANES → slice_index result j ≡ window_word (lane j ring.now) place }
{
    let late = lower_sigma1(ring[(place + 14) % 16]);
    let early = lower_sigma0(ring[(place + 1) % 16]);
    let two = sum(late, ring[(place + 9) % 16]);
    let three = sum(two, early);
    sum(three, ring[place])
}

// Round `t` of the first 16, whose words are the block's.
#[inline(always)]
fn block_round(ring: &Ring, v: State, t: usize) -> State
    requires { t < 16 }
    ensures { (j : ℕ) → j < LANES → (b h : List ℕ) → IsWindow (lane j ring.now) (schedule b 48) 16
        → sha256_state_in j v ≡ rounds h (schedule b 48) t
        → sha256_state_in j result ≡ rounds h (schedule b 48) (t + 1) }
{
    round(v, ROUND_WORDS[t], ring[t])
}

/// The four rounds from `t` on, of the first 16, whose words are the block's.
#[inline(always)]
pub(crate) fn four_block_rounds(ring: &Ring, v: State, t: usize) -> State
    requires { t + 4 ≤ 16 }
    ensures { (j : ℕ) → j < LANES → (b h : List ℕ) → IsWindow (lane j ring.now) (schedule b 48) 16
        → sha256_state_in j v ≡ rounds h (schedule b 48) t
        → sha256_state_in j result ≡ rounds h (schedule b 48) (t + 4) }
{
    let v = block_round(ring, v, t);
    let v = block_round(ring, v, t + 1);
    let v = block_round(ring, v, t + 2);
    block_round(ring, v, t + 3)
}

// Round `16 * turn + place`, after the first 16. Its word takes the place of the one 16 before it.
#[inline(always)]
fn later_round(ring: &mut Ring, v: State, turn: usize, place: usize) -> State
    requires later { 1 ≤ turn }
    requires turn { turn < 4 }
    requires place { place < 16 }
    ensures { (j : ℕ) → j < LANES → (b h : List ℕ)
        → IsRoundsAt b h (lane j ring.old) (sha256_state_in j v) (16 * turn + place)
        → IsRoundsAt b h (lane j ring.new) (sha256_state_in j result) (16 * turn + (place + 1)) }
{
    let word = next_word(ring, place);
    ring[place] = word;
    round(v, ROUND_WORDS[16 * turn + place], word)
}

/// The four rounds from `16 * turn + place` on, after the first 16.
#[inline(always)]
pub(crate) fn four_later_rounds(ring: &mut Ring, v: State, turn: usize, place: usize) -> State
    requires later { 1 ≤ turn }
    requires turn { turn < 4 }
    requires place { place + 4 ≤ 16 }
    ensures { (j : ℕ) → j < LANES → (b h : List ℕ)
        → IsRoundsAt b h (lane j ring.old) (sha256_state_in j v) (16 * turn + place)
        → IsRoundsAt b h (lane j ring.new) (sha256_state_in j result) (16 * turn + (place + 4)) }
{
    let v = later_round(ring, v, turn, place);
    let v = later_round(ring, v, turn, place + 1);
    let v = later_round(ring, v, turn, place + 2);
    later_round(ring, v, turn, place + 3)
}

// Round `t` over the block that pads a message of 64 bytes.
#[inline(always)]
fn padding_round(v: State, t: usize) -> State
    requires { t < 64 }
    ensures { (j : ℕ) → j < LANES → (h : List ℕ)
        → sha256_state_in j v ≡ rounds h (schedule (padding 64) 48) t
        → sha256_state_in j result ≡ rounds h (schedule (padding 64) 48) (t + 1) }
{
    let word = same(PADDING_SCHEDULE[t]);
    round(v, ROUND_WORDS[t], word)
}

/// The four rounds from `t` on, over the block that pads a message of 64 bytes.
#[inline(always)]
pub(crate) fn four_padding_rounds(v: State, t: usize) -> State
    requires { t + 4 ≤ 64 }
    ensures { (j : ℕ) → j < LANES → (h : List ℕ)
        → sha256_state_in j v ≡ rounds h (schedule (padding 64) 48) t
        → sha256_state_in j result ≡ rounds h (schedule (padding 64) 48) (t + 4) }
{
    let v = padding_round(v, t);
    let v = padding_round(v, t + 1);
    let v = padding_round(v, t + 2);
    padding_round(v, t + 3)
}
