//! The rounds over a block (FIPS 180-4, 6.1.2), for each message.

ghost use Rattle.std.specs.Prelude.{◌≡◌, ℕ, ◌+◌, ◌%◌, ◌<◌, ◌≤◌, List, slice_index, slice_set};
ghost use Rattle.sha1.specs.Sha1.{IsRoundsAt, IsWindow, round, rounds, schedule, window_word};
ghost use Rattle.lanes.specs.Lanes.{lane};
ghost use Rattle.sha1_lanes.specs.Batches.{state_in};
ghost use Rattle.lanes.specs.declared.words.TheConstants.{LANES};

use lanes::{Block, LANES, Words, choice, differing, majority, parity, rotated_left, same, sum};

/// The hash value of each message, or its working variables a to e.
pub(crate) type State = [Words; 5];

/// Sixteen words of the schedule of each message: word `t` stands at place `t % 16`.
pub(crate) type Ring = Block;

// K, for each twenty rounds (FIPS 180-4, 4.2.1).
const CHOOSE: u32 = 0x5A827999;

const PARITY: u32 = 0x6ED9EBA1;

const MAJORITY: u32 = 0x8F1BBCDC;

const LAST: u32 = 0xCA62C1D6;

// One round, with what its function gives, its constant and a word of each schedule. What is known
// before the round is summed first.
#[inline(always)]
fn round(v: State, chosen: Words, constant: u32, word: Words) -> State
    ensures { (j : ℕ) → j < LANES → state_in j result
        ≡ round (state_in j v) (slice_index chosen j) constant (slice_index word j) }
{
    let [a, b, c, d, e] = v;
    let known = sum(word, same(constant));
    let with_e = sum(known, e);
    let with_chosen = sum(with_e, chosen);
    let turned = rotated_left(a, 5);
    [sum(with_chosen, turned), a, rotated_left(b, 30), c, d]
}

// The word of each schedule for round `t`, from 16 on. It takes the place of the one 16 before it.
#[inline(always)]
fn next_word(ring: &mut Ring, t: usize) -> Words
    requires { t < 80 }
    ensures value { (j : ℕ) → j < LANES → slice_index result j ≡ window_word (lane j ring.old) t }
    ensures window { ring.new ≡ slice_set ring.old (t % 16) result }
{
    let two = differing(ring[(t + 13) % 16], ring[(t + 8) % 16]);
    let three = differing(two, ring[(t + 2) % 16]);
    let four = differing(three, ring[t % 16]);
    let word = rotated_left(four, 1);
    ring[t % 16] = word;
    word
}

// Round `t` of the first 16, whose words are the block's.
#[inline(always)]
fn block_round(ring: &Ring, v: State, t: usize) -> State
    requires { t < 16 }
    ensures { (j : ℕ) → j < LANES → (b h : List ℕ) → IsWindow (lane j ring.now) (schedule b 64) 16
        → state_in j v ≡ rounds h (schedule b 64) t
        → state_in j result ≡ rounds h (schedule b 64) (t + 1) }
{
    let chosen = choice(v[1], v[2], v[3]);
    round(v, chosen, CHOOSE, ring[t])
}

/// The four rounds from `t` on, of the first 16, whose words are the block's.
#[inline(always)]
pub(crate) fn four_block_rounds(ring: &Ring, v: State, t: usize) -> State
    requires { t + 4 ≤ 16 }
    ensures { (j : ℕ) → j < LANES → (b h : List ℕ) → IsWindow (lane j ring.now) (schedule b 64) 16
        → state_in j v ≡ rounds h (schedule b 64) t
        → state_in j result ≡ rounds h (schedule b 64) (t + 4) }
{
    let v = block_round(ring, v, t);
    let v = block_round(ring, v, t + 1);
    let v = block_round(ring, v, t + 2);
    block_round(ring, v, t + 3)
}

// Round `t`, of those from 16 to 19.
#[inline(always)]
fn choose_round(ring: &mut Ring, v: State, t: usize) -> State
    requires from { 16 ≤ t }
    requires to { t < 20 }
    ensures { (j : ℕ) → j < LANES → (b h : List ℕ)
        → IsRoundsAt b h (lane j ring.old) (state_in j v) t
        → IsRoundsAt b h (lane j ring.new) (state_in j result) (t + 1) }
{
    let word = next_word(ring, t);
    let chosen = choice(v[1], v[2], v[3]);
    round(v, chosen, CHOOSE, word)
}

/// The four rounds from `t` on, of those from 16 to 19.
#[inline(always)]
pub(crate) fn four_choose_rounds(ring: &mut Ring, v: State, t: usize) -> State
    requires from { 16 ≤ t }
    requires to { t + 4 ≤ 20 }
    ensures { (j : ℕ) → j < LANES → (b h : List ℕ)
        → IsRoundsAt b h (lane j ring.old) (state_in j v) t
        → IsRoundsAt b h (lane j ring.new) (state_in j result) (t + 4) }
{
    let v = choose_round(ring, v, t);
    let v = choose_round(ring, v, t + 1);
    let v = choose_round(ring, v, t + 2);
    choose_round(ring, v, t + 3)
}

// Round `t`, of those from 20 to 39.
#[inline(always)]
fn parity_round(ring: &mut Ring, v: State, t: usize) -> State
    requires from { 20 ≤ t }
    requires to { t < 40 }
    ensures { (j : ℕ) → j < LANES → (b h : List ℕ)
        → IsRoundsAt b h (lane j ring.old) (state_in j v) t
        → IsRoundsAt b h (lane j ring.new) (state_in j result) (t + 1) }
{
    let word = next_word(ring, t);
    let chosen = parity(v[1], v[2], v[3]);
    round(v, chosen, PARITY, word)
}

/// The five rounds from `t` on, of those from 20 to 39.
#[inline(always)]
pub(crate) fn five_parity_rounds(ring: &mut Ring, v: State, t: usize) -> State
    requires from { 20 ≤ t }
    requires to { t + 5 ≤ 40 }
    ensures { (j : ℕ) → j < LANES → (b h : List ℕ)
        → IsRoundsAt b h (lane j ring.old) (state_in j v) t
        → IsRoundsAt b h (lane j ring.new) (state_in j result) (t + 5) }
{
    let v = parity_round(ring, v, t);
    let v = parity_round(ring, v, t + 1);
    let v = parity_round(ring, v, t + 2);
    let v = parity_round(ring, v, t + 3);
    parity_round(ring, v, t + 4)
}

// Round `t`, of those from 40 to 59.
#[inline(always)]
fn majority_round(ring: &mut Ring, v: State, t: usize) -> State
    requires from { 40 ≤ t }
    requires to { t < 60 }
    ensures { (j : ℕ) → j < LANES → (b h : List ℕ)
        → IsRoundsAt b h (lane j ring.old) (state_in j v) t
        → IsRoundsAt b h (lane j ring.new) (state_in j result) (t + 1) }
{
    let word = next_word(ring, t);
    let chosen = majority(v[1], v[2], v[3]);
    round(v, chosen, MAJORITY, word)
}

/// The five rounds from `t` on, of those from 40 to 59.
#[inline(always)]
pub(crate) fn five_majority_rounds(ring: &mut Ring, v: State, t: usize) -> State
    requires from { 40 ≤ t }
    requires to { t + 5 ≤ 60 }
    ensures { (j : ℕ) → j < LANES → (b h : List ℕ)
        → IsRoundsAt b h (lane j ring.old) (state_in j v) t
        → IsRoundsAt b h (lane j ring.new) (state_in j result) (t + 5) }
{
    let v = majority_round(ring, v, t);
    let v = majority_round(ring, v, t + 1);
    let v = majority_round(ring, v, t + 2);
    let v = majority_round(ring, v, t + 3);
    majority_round(ring, v, t + 4)
}

// Round `t`, of those from 60 to 79.
#[inline(always)]
fn last_round(ring: &mut Ring, v: State, t: usize) -> State
    requires from { 60 ≤ t }
    requires to { t < 80 }
    ensures { (j : ℕ) → j < LANES → (b h : List ℕ)
        → IsRoundsAt b h (lane j ring.old) (state_in j v) t
        → IsRoundsAt b h (lane j ring.new) (state_in j result) (t + 1) }
{
    let word = next_word(ring, t);
    let chosen = parity(v[1], v[2], v[3]);
    round(v, chosen, LAST, word)
}

/// The five rounds from `t` on, of those from 60 to 79.
#[inline(always)]
pub(crate) fn five_last_rounds(ring: &mut Ring, v: State, t: usize) -> State
    requires from { 60 ≤ t }
    requires to { t + 5 ≤ 80 }
    ensures { (j : ℕ) → j < LANES → (b h : List ℕ)
        → IsRoundsAt b h (lane j ring.old) (state_in j v) t
        → IsRoundsAt b h (lane j ring.new) (state_in j result) (t + 5) }
{
    let v = last_round(ring, v, t);
    let v = last_round(ring, v, t + 1);
    let v = last_round(ring, v, t + 2);
    let v = last_round(ring, v, t + 3);
    last_round(ring, v, t + 4)
}
