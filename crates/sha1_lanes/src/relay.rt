//! Messages that begin one after the other, and pass on from lane to lane.

ghost use Rattle.std.specs.Prelude.{◌≡◌, ℕ, suc, ◌+◌, ◌-◌, ◌*◌, ◌%◌, ◌<◌, ◌≤◌, ◌++◌, [], List, length, slice_index};
ghost use Rattle.sha1.specs.Sha1.{initial_hash, sha1};
ghost use Rattle.sha1_lanes.specs.Batches.{bytes_at, hash_value_of, state_in};
ghost use Rattle.lanes.specs.declared.words.TheConstants.{LANES};

use crate::compression::{compress, initial_state};
use crate::ending::take_ending;
use crate::rounds::State;
use crate::values::Values;
use lanes::{LANES, Words, block_of_places, digest_of};

/// Messages that begin one after the other, hashed side by side. A message begins in lane 0, and
/// each `step` takes a part of each and passes each on to the next lane. So a message that is cut
/// into as many parts of one size as there are lanes has its digest after as many steps.
#[derive(Drop)]
pub struct Relay {
    values: Values,
}

impl Relay {
    ghost use Rattle.sha1_lanes.specs.Relays.{HasPassed};

    /// A new message in lane 0. What is in the other lanes is no message of anyone.
    pub fn new() -> Relay
        ensures { HasPassed result 0 [] }
    {
        Relay {
            values: Values::of(&initial_state()),
        }
    }

    /// Takes the next `size` bytes of each message, of the one in lane `j` those from byte
    /// `starts[j]` of the buffer on. Then each passes on to the next lane, and a new one begins in
    /// lane 0. Returns the digest of the one that was in the last lane, if all its bytes came in
    /// parts of this size, one for each lane. Conditions: the size is a multiple of 64, and the
    /// bytes stand in the buffer.
    pub fn step(&mut self, buffer: &[u8], starts: &[usize; LANES], size: usize) -> [u8; 20]
        requires whole_blocks { size % 64 ≡ 0 }
        requires inside { (j : ℕ) → j < LANES
            → slice_index starts.now j + size ≤ length buffer.now }
        ensures passes { (j : ℕ) → suc j < LANES → (m : List ℕ) → HasPassed self.old j m
            → HasPassed self.new (suc j)
            (m ++ bytes_at buffer.now (slice_index starts.now j) size) }
        ensures begins { HasPassed self.new 0 [] }
        ensures digest { (m : List ℕ) → HasPassed self.old (LANES - 1) m
            → length m ≡ (LANES - 1) * size → result
            ≡ sha1 (m ++ bytes_at buffer.now (slice_index starts.now (LANES - 1)) size) }
    {
        let mut state = self.values.state();
        take_blocks(&mut state, buffer, starts, size);
        self.values = Values::of(&passed_on(&state));
        last_digest(&state, size)
    }
}

// Takes the next `size` bytes of each message, from these places of the buffer on.
fn take_blocks(state: &mut State, buffer: &[u8], starts: &[usize; LANES], size: usize)
    requires whole_blocks { size % 64 ≡ 0 }
    requires inside { (j : ℕ) → j < LANES → slice_index starts.now j + size ≤ length buffer.now }
    ensures { (j : ℕ) → j < LANES → (m : List ℕ) → length m % 64 ≡ 0
        → state_in j state.old ≡ hash_value_of m → state_in j state.new
        ≡ hash_value_of (m ++ bytes_at buffer.now (slice_index starts.now j) size) }
{
    'blocks: for block in 0..size / 64 {
        let words = block_of_places(buffer, starts, 64 * block);
        compress(state, words);
    }
}

// The digest of the message in the last lane, of which as many parts of this size came as there are
// lanes.
fn last_digest(state: &State, size: usize) -> [u8; 20]
    ensures { (m : List ℕ) → length m % 64 ≡ 0 → length m ≡ LANES * size
        → state_in (LANES - 1) state.now ≡ hash_value_of m → result ≡ sha1 m }
{
    let mut state = *state;
    take_ending(&mut state, &[], (size as u64).wrapping_mul(LANES as u64));
    digest_of(&state, LANES - 1)
}

// Passes each message on to the next lane, and begins a new one in lane 0.
fn passed_on(state: &State) -> State
    ensures begins { state_in 0 result ≡ initial_hash }
    ensures passes { (j : ℕ) → suc j < LANES → state_in (suc j) result ≡ state_in j state.now }
{
    let first = initial_state();
    [
        passed(first[0], state[0]),
        passed(first[1], state[1]),
        passed(first[2], state[2]),
        passed(first[3], state[3]),
        passed(first[4], state[4]),
    ]
}

// The first word of `first`, and then those of `words` but the last.
fn passed(first: Words, words: Words) -> Words
    ensures begins { slice_index result 0 ≡ slice_index first 0 }
    ensures passes { (j : ℕ) → suc j < LANES → slice_index result (suc j) ≡ slice_index words j }
{
    let old = words.to_array();
    let mut new = first.to_array();
    'lanes: for j in 1..LANES {
        new[j] = old[j - 1];
    }
    Words::from_array(new)
}
