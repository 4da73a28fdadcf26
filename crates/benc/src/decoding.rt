//! Decoding: the value that bytes spell, or their first fault (BEP 3, "bencoding", canonical form
//! alone).
ghost use Rattle.std.specs.Prelude.{◌≡◌, ◌≢◌, ◌≤◌, ◌++◌, List, ℕ, length, take, IfOk, IfErr, IfSome};
ghost use Rattle.std.specs.Option.{option_copied};
ghost use Rattle.benc.specs.Answers.{AnswersFault, IsAtGrowth, IsFaultOf, IsOfSpelling, IsOfFront, UnlessNoMemory};
ghost use Rattle.benc.specs.Fails.{Stops, Fails, Reaches};
ghost use Rattle.benc.specs.Lookup.{StandsUnder, span_of};
ghost use Rattle.benc.specs.Parser.{IsValueSpan, StandsInInput};
ghost use Rattle.benc.specs.Spelling.{Spells, max_open};
ghost use Rattle.benc.specs.Storing.{KeepsAll};
ghost use Rattle.benc.specs.Text.{spelling, IsCanonical};
ghost use Rattle.benc.specs.Thrift.{IsValueThrifty};
ghost use Rattle.benc.specs.Value.{Bencode};
ghost use Rattle.benc.specs.View.{view};
ghost use Rattle.benc.specs.declared.fault.FaultKind.{FaultKind};

use crate::canonical::MAX_OPEN;
use crate::fault::{Fault, FaultKind};
use crate::parser::value;
use crate::store::Store;
use crate::value::Value;
use std::alloc::Global;

/// The value that the whole input spells, over the input's own bytes.
///
/// Items are read from left to right and the first fault is answered, with the offset in bytes at
/// which the failing item starts; `FaultKind` says when each comes. `NoMemory` comes only if a list
/// or dictionary could not grow and the input has no fault; its offset is where that one starts.
/// After a fault there is no value.
pub fn decode<'a>(alloc: Global, input: &'a [u8]) -> Result<Value<'a>, Fault>
    ensures found { IfOk result (λ v. Spells (view v) input.now) }
    ensures fault { IfErr result (IsFaultOf (Fails input.now)) }
    ensures memory { IfErr result (IsAtGrowth input.now) }
    // Out of memory hides no fault.
    ensures spelled { IfErr result (IsOfSpelling input.now) }
    ensures only { (v : Bencode) → Spells v input.now → UnlessNoMemory result (λ w. view w ≡ v) }
    // It answers the one fault that the input has.
    ensures first { (kind : FaultKind) (offset : ℕ) → Fails input.now kind offset
        → AnswersFault result kind offset }
    // What `encode` writes of a value gives that value.
    ensures encoded { (v : Bencode) → IsCanonical v → input.now ≡ spelling v
        → UnlessNoMemory result (λ w. view w ≡ v) }
    ensures room { IfOk result IsValueThrifty }
{
    let (v, _) = parse_whole(alloc, input, None)?;
    Ok(v)
}

/// The value at the front of the input, and how many bytes it takes. The faults are those of
/// `decode`, except for `Trailing`.
pub fn decode_front<'a>(alloc: Global, input: &'a [u8]) -> Result<(Value<'a>, usize), Fault>
    ensures used { IfOk result (λ x. x.1 ≤ length input.now) }
    ensures found { IfOk result (λ x. Spells (view x.0) (take x.1 input.now)) }
    ensures fault { IfErr result (IsFaultOf (Stops input.now)) }
    ensures memory { IfErr result (IsAtGrowth input.now) }
    // Out of memory hides no fault.
    ensures spelled { IfErr result (IsOfFront input.now) }
    ensures only { (v : Bencode) (front rest : List ℕ) → input.now ≡ front ++ rest → Spells v front
        → UnlessNoMemory result (λ x. (view x.0 ≡ v) × (x.1 ≡ length front)) }
    // It answers the one fault that the input has.
    ensures first { (kind : FaultKind) (offset : ℕ) → Stops input.now kind offset
        → AnswersFault result kind offset }
    ensures room { IfOk result (λ x. IsValueThrifty x.0) }
{
    let mut store = Store::new(alloc);
    let (v, _, used) = parse_front(&mut store, input, None)?;
    store.check(input)?;
    Ok((v, used))
}

/// The value that the whole input spells, and the bytes of the value under `key` in it, as `span`
/// gives them. It reads the input once. The faults are those of `decode`.
pub fn decode_with_span<'a>(
    alloc: Global,
    input: &'a [u8],
    key: &[u8],
) -> Result<(Value<'a>, Option<&'a [u8]>), Fault>
    ensures found { IfOk result (λ x. Spells (view x.0) input.now) }
    ensures span { IfOk result (λ x. option_copied x.1 ≡ span_of key.now (view x.0)) }
    // The bytes stand in the input, after the key.
    ensures stands { IfOk result (λ x. IfSome (option_copied x.1) (StandsUnder input.now key.now)) }
    ensures fault { IfErr result (IsFaultOf (Fails input.now)) }
    ensures memory { IfErr result (IsAtGrowth input.now) }
    // Out of memory hides no fault.
    ensures spelled { IfErr result (IsOfSpelling input.now) }
    ensures only { (v : Bencode) → Spells v input.now
        → UnlessNoMemory result (λ x. view x.0 ≡ v) }
    // It answers the one fault that the input has.
    ensures first { (kind : FaultKind) (offset : ℕ) → Fails input.now kind offset
        → AnswersFault result kind offset }
    ensures room { IfOk result (λ x. IsValueThrifty x.0) }
{
    parse_whole(alloc, input, Some(key))
}

/// The bytes, as found, of the value under `key` in the dictionary that the input spells. There are
/// none if the input spells no dictionary, or one that lacks the key. The faults are those of
/// `decode`.
pub fn span<'a>(alloc: Global, input: &'a [u8], key: &[u8]) -> Result<Option<&'a [u8]>, Fault>
    ensures found { IfOk result (λ s. (v : Bencode) × Spells v input.now
        × (option_copied s ≡ span_of key.now v)) }
    // The bytes stand in the input, after the key.
    ensures stands { IfOk result (λ s. IfSome (option_copied s) (StandsUnder input.now key.now)) }
    ensures fault { IfErr result (IsFaultOf (Fails input.now)) }
    ensures memory { IfErr result (IsAtGrowth input.now) }
    // Out of memory hides no fault.
    ensures spelled { IfErr result (IsOfSpelling input.now) }
    ensures only { (v : Bencode) → Spells v input.now
        → UnlessNoMemory result (λ s. option_copied s ≡ span_of key.now v) }
    // It answers the one fault that the input has.
    ensures first { (kind : FaultKind) (offset : ℕ) → Fails input.now kind offset
        → AnswersFault result kind offset }
{
    let (_, span) = parse_whole(alloc, input, Some(key))?;
    Ok(span)
}

// The value that the whole input spells, and the bytes of the value under the key that is asked
// for.
fn parse_whole<'a>(
    alloc: Global,
    input: &'a [u8],
    asked: Option<&[u8]>,
) -> Result<(Value<'a>, Option<&'a [u8]>), Fault>
    ensures found { IfOk result (λ x. Spells (view x.0) input.now) }
    ensures span { IfOk result (λ x. IsValueSpan asked.entry (view x.0) x.1) }
    ensures stands { IfOk result (λ x. StandsInInput input.now asked.entry x.1) }
    ensures fault { IfErr result (IsFaultOf (Fails input.now)) }
    ensures memory { IfErr result (IsAtGrowth input.now) }
    // Out of memory hides no fault.
    ensures spelled { IfErr result (IsOfSpelling input.now) }
    ensures only { (v : Bencode) → Spells v input.now
        → UnlessNoMemory result (λ x. view x.0 ≡ v) }
    ensures first { (kind : FaultKind) (offset : ℕ) → Fails input.now kind offset
        → AnswersFault result kind offset }
    ensures room { IfOk result (λ x. IsValueThrifty x.0) }
{
    let mut store = Store::new(alloc);
    let (v, span, used) = parse_front(&mut store, input, asked)?;
    if used < input.len() {
        return Err(Fault {
            kind: FaultKind::Trailing,
            offset: used,
        });
    }
    store.check(input)?;
    Ok((v, span))
}

// The value at the front, the bytes of the value under the key that is asked for, and how many
// bytes it takes. If the store refused a growth, only the bytes that it takes count.
fn parse_front<'a>(
    store: &mut Store<'a>,
    input: &'a [u8],
    asked: Option<&[u8]>,
) -> Result<(Value<'a>, Option<&'a [u8]>, usize), Fault>
    requires { KeepsAll store.old }
    ensures used { IfOk result (λ x. x.2 ≤ length input.now) }
    ensures spelled { IfOk result (λ x. (v : Bencode) × Spells v (take x.2 input.now)) }
    ensures kept { KeepsAll store.new → IfOk result (λ x. Spells (view x.0) (take x.2 input.now)) }
    ensures span { KeepsAll store.new → IfOk result (λ x. IsValueSpan asked.entry (view x.0) x.1) }
    ensures memory { IfOk result (λ _. IfSome (option_copied store.new.refused)
        (Reaches max_open input.now)) }
    ensures room { IfOk result (λ x. IsValueThrifty x.0) }
    ensures fault { IfErr result
        (λ f. (f.kind ≢ FaultKind.NoMemory) × Stops input.now f.kind f.offset) }
{
    match value(store, input, MAX_OPEN, asked) {
        Ok((v, span, rest)) => Ok((v, span, input.len() - rest.len())),
        Err(stop) => Err(Fault {
            kind: stop.kind,
            offset: input.len() - stop.rest.len(),
        }),
    }
}
