//! From bytes to a value.
ghost use Rattle.std.specs.Prelude.{◌≡◌, ◌<◌, length, IfOk, IfSome, Ok, vec_capacity};
ghost use Rattle.std.specs.Option.{option_copied};
ghost use Rattle.benc.specs.Lookup.{if_key};
ghost use Rattle.benc.specs.Value.{dict};
ghost use Rattle.benc.specs.View.{view, items_view, pairs_view};
ghost use Rattle.benc.specs.Fails.{Reaches};
ghost use Rattle.benc.specs.Parser.{GrowsForItem, GrowsForPair, IsValueSpan, ReadsOn, items_behind, pairs_behind, value_at};
ghost use Rattle.benc.specs.Storing.{KeepsAll, Refused};
ghost use Rattle.benc.specs.Thrift.{AreThrifty, ArePairsThrifty, IsSmallRoom, IsValueThrifty};

use crate::fault::FaultKind;
use crate::scan::{integer, key, split_front, string};
use crate::stop::Stop;
use crate::store::Store;
use crate::value::{Pair, Value};

/// The value at the front, the bytes of the value under the key that is asked for if it is a
/// dictionary that has it, and what follows. At most `room` lists and dictionaries are open at
/// once. If the store refused a growth, only what follows counts.
#[cycle(read)]
pub(crate) fn value<'a>(
    store: &mut Store<'a>,
    bytes: &'a [u8],
    room: u32,
    asked: Option<&[u8]>,
) -> Result<(Value<'a>, Option<&'a [u8]>, &'a [u8]), Stop<'a>>
    ensures read { ReadsOn (λ x. x.2.now) result (value_at room bytes.now) }
    ensures kept { KeepsAll store.new
        → IfOk result (λ x. value_at room bytes.now ≡ Ok (view x.0, x.2.now)) }
    ensures shorter { IfOk result (λ x. length x.2.now < length bytes.now) }
    ensures memory { IfOk result (λ _. Refused store.old store.new (Reaches room bytes.now)) }
    ensures span { KeepsAll store.new → IfOk result (λ x. IsValueSpan asked.entry (view x.0) x.1) }
    ensures room { IfOk result (λ x. IsValueThrifty x.0) }
{
    let Some((first, rest)) = split_front(bytes) else {
        return Err(Stop::at(FaultKind::Truncated, bytes));
    };
    match first {
        b'i' => match integer(rest) {
            Ok((n, after)) => Ok((Value::Int(n), None, after)),
            Err(kind) => Err(Stop::at(kind, bytes)),
        },
        b'l' => {
            if room == 0 {
                return Err(Stop::at(FaultKind::TooDeep, bytes));
            }
            let (found, after) = items(store, bytes, rest, room - 1)?;
            Ok((Value::List(found), None, after))
        }
        b'd' => {
            if room == 0 {
                return Err(Stop::at(FaultKind::TooDeep, bytes));
            }
            let (found, span, after) = pairs(store, bytes, rest, room - 1, asked)?;
            Ok((Value::Dict(found), span, after))
        }
        b'0'..=b'9' => match string(bytes) {
            Ok((text, after)) => Ok((Value::Bytes(text), None, after)),
            Err(kind) => Err(Stop::at(kind, bytes)),
        },
        _ => Err(Stop::at(FaultKind::BadStart, bytes)),
    }
}

// The items up to the end mark, and what follows that.
#[cycle(read)]
fn items<'a>(
    store: &mut Store<'a>,
    start: &'a [u8],
    bytes: &'a [u8],
    room: u32,
) -> Result<(Vec<Value<'a>>, &'a [u8]), Stop<'a>>
    ensures read { ReadsOn (λ x. x.1.now) result (items_behind room bytes.now) }
    ensures kept { KeepsAll store.new
        → IfOk result (λ x. items_behind room bytes.now ≡ Ok (items_view x.0.items, x.1.now)) }
    ensures shorter { IfOk result (λ x. length x.1.now < length bytes.now) }
    ensures memory { IfOk result
        (λ _. Refused store.old store.new (GrowsForItem room start.now bytes.now)) }
    ensures room { IfOk result (λ x. IsSmallRoom (vec_capacity x.0) (length x.0.items)
        × AreThrifty x.0.items) }
{
    let mut found = Vec::new(store.alloc);
    let mut rest = bytes;
    'items: loop {
        let here = rest;
        let Some((first, after)) = split_front(here) else {
            return Err(Stop::at(FaultKind::Truncated, here));
        };
        if first == b'e' {
            return Ok((found, after));
        }
        let (item, _, after) = value(store, here, room, None)?;
        store.push(start, &mut found, item);
        rest = after;
    }
}

// The pairs up to the end mark, the bytes of the value under a key that is asked for, and what
// follows the mark.
#[cycle(read)]
fn pairs<'a>(
    store: &mut Store<'a>,
    start: &'a [u8],
    bytes: &'a [u8],
    room: u32,
    asked: Option<&[u8]>,
) -> Result<(Vec<Pair<'a>>, Option<&'a [u8]>, &'a [u8]), Stop<'a>>
    ensures read { ReadsOn (λ x. x.2.now) result (pairs_behind room bytes.now) }
    ensures kept { KeepsAll store.new
        → IfOk result (λ x. pairs_behind room bytes.now ≡ Ok (pairs_view x.0.items, x.2.now)) }
    ensures shorter { IfOk result (λ x. length x.2.now < length bytes.now) }
    ensures memory { IfOk result
        (λ _. Refused store.old store.new (GrowsForPair room start.now bytes.now)) }
    ensures span { KeepsAll store.new
        → IfOk result (λ x. IsValueSpan asked.entry (dict (pairs_view x.0.items)) x.1) }
    ensures room { IfOk result (λ x. IsSmallRoom (vec_capacity x.0) (length x.0.items)
        × ArePairsThrifty x.0.items) }
{
    let mut found = Vec::new(store.alloc);
    let mut span = None;
    let mut rest = bytes;
    let mut before = None;
    'pairs: loop {
        let here = rest;
        let Some((first, after)) = split_front(here) else {
            return Err(Stop::at(FaultKind::Truncated, here));
        };
        if first == b'e' {
            return Ok((found, span, after));
        }
        let (name, behind) = match key(before, here) {
            Ok(x) => x,
            Err(kind) => return Err(Stop::at(kind, here)),
        };
        let (item, _, after) = value(store, behind, room, None)?;
        span = span.or(if_asked(asked, name, &behind[..behind.len() - after.len()]));
        let pair = Pair {
            key: name,
            value: item,
        };
        store.push(start, &mut found, pair);
        before = Some(name);
        rest = after;
    }
}

// The bytes of a value, if its key is the one that is asked for.
fn if_asked<'a>(asked: Option<&[u8]>, name: &[u8], value: &'a [u8]) -> Option<&'a [u8]>
    ensures { IfSome (option_copied asked.entry) (λ key.
        option_copied result ≡ if_key key name.now value.entry.now) }
{
    (name == asked?).then_some(value)
}
