//! Which values have a spelling.
ghost use Rattle.std.specs.Prelude.{◌<◌, ◌^◌, ◌↔◌, IsTrue, None, length};
ghost use Rattle.benc.specs.Text.{IsCanonical, Fits, ItemsFit, PairsFit};
ghost use Rattle.benc.specs.View.{view, items_view, pairs_view};

use crate::scan::is_above;
use crate::value::{Pair, Value};

/// At most this many lists and dictionaries are open at once, the innermost counted.
pub(crate) const MAX_OPEN: u32 = 128;

// The least length of more than ten digits.
const TOO_LONG: u64 = 10_000_000_000;

impl<'a> Value<'a> {
    /// Whether the value has a spelling: its keys ascend strictly, its byte strings and keys are
    /// shorter than 10^10 bytes, and at most 128 lists and dictionaries are open at once.
    pub fn is_canonical(&self) -> bool
        ensures { IsTrue result ↔ IsCanonical (view self.now) }
    {
        fits(self, MAX_OPEN)
    }
}

// Whether the value has a spelling with at most `room` lists and dictionaries open at once.
#[cycle(fits)]
fn fits(v: &Value<'_>, room: u32) -> bool
    ensures { IsTrue result ↔ Fits room (view v.now) }
{
    match v {
        Value::Int(n) => {
            // The prover knows an integer's range where it is read.
            let _fits_64_bits = *n;
            true
        }
        Value::Bytes(text) => is_short(text),
        Value::List(items) => room > 0 && items_fit(items, room - 1),
        Value::Dict(pairs) => room > 0 && pairs_fit(pairs, room - 1),
    }
}

// Whether each item has such a spelling.
#[cycle(fits)]
fn items_fit(items: &Vec<Value<'_>>, room: u32) -> bool
    ensures { IsTrue result ↔ ItemsFit room (items_view items.now.items) }
{
    'items: for item in items {
        if !fits(item, room) {
            return false;
        }
    }
    true
}

// Whether each key and value has such a spelling, and the keys ascend strictly.
#[cycle(fits)]
fn pairs_fit(pairs: &Vec<Pair<'_>>, room: u32) -> bool
    ensures { IsTrue result ↔ PairsFit room None (pairs_view pairs.now.items) }
{
    let mut before = None;
    'pairs: for pair in pairs {
        if !is_short(pair.key) || !is_above(pair.key, before) || !fits(&pair.value, room) {
            return false;
        }
        before = Some(pair.key);
    }
    true
}

// Whether the length of a byte string has at most ten digits.
fn is_short(text: &[u8]) -> bool
    ensures { IsTrue result ↔ (length text.now < 10 ^ 10) }
{
    (text.len() as u64) < TOO_LONG
}
