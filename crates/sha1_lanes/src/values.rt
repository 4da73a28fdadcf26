//! The hash values of messages, as they are kept between parts.

ghost use Rattle.std.specs.Prelude.{◌≡◌, ℕ, ◌<◌};
ghost use Rattle.sha1_lanes.specs.Batches.{state_in};
ghost use Rattle.lanes.specs.declared.words.TheConstants.{LANES};

use crate::rounds::State;
use lanes::Words;

/// The hash value of each message, a field for each word.
#[derive(Drop)]
pub(crate) struct Values {
    a: Words,
    b: Words,
    c: Words,
    d: Words,
    e: Words,
}

impl Values {
    ghost use Rattle.sha1_lanes.specs.Batches.{value_in};

    /// Keeps these hash values.
    pub(crate) fn of(state: &State) -> Values
        ensures { (j : ℕ) → j < LANES → value_in j result ≡ state_in j state.now }
    {
        let [a, b, c, d, e] = *state;
        Values { a, b, c, d, e }
    }

    /// The hash values that are kept.
    pub(crate) fn state(&self) -> State
        ensures { (j : ℕ) → j < LANES → state_in j result ≡ value_in j self.now }
    {
        [self.a, self.b, self.c, self.d, self.e]
    }
}
