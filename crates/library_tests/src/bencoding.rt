//! Bencodings: those that are refused, and those that are written as they were read.
use benc::memory::MemSink;
use benc::*;
use std::alloc::{AllocError, Global};
use std::fmt::Debug;
use std::test::*;

// Inputs, and the fault that `decode` answers.
const FAULTS: &[(&[u8], FaultKind, usize)] = &[
    (b"i-0e", FaultKind::BadInteger, 0),
    (b"i03e", FaultKind::BadInteger, 0),
    (b"02:ab", FaultKind::BadLength, 0),
    (b"d1:bi1e1:ai1ee", FaultKind::KeyOrder, 7),
    (b"d1:ai1e1:ai2ee", FaultKind::KeyOrder, 7),
    (b"i1ei2e", FaultKind::Trailing, 3),
    (b"i9223372036854775808e", FaultKind::IntegerRange, 0),
    (b"i-9223372036854775809e", FaultKind::IntegerRange, 0),
    (b"", FaultKind::Truncated, 0),
    (b"l", FaultKind::Truncated, 1),
    (b"5:abc", FaultKind::Truncated, 0),
    (b"di1ei2ee", FaultKind::BadStart, 1),
    (b"x", FaultKind::BadStart, 0),
    (&[b'l'; 129], FaultKind::TooDeep, 128),
    (b"d1:a", FaultKind::Truncated, 4),
    (b"d1:ae", FaultKind::BadStart, 4),
    (b"d2:a", FaultKind::Truncated, 1),
    (b"i12", FaultKind::Truncated, 0),
    (b"i-", FaultKind::Truncated, 0),
    (b"i1x", FaultKind::BadInteger, 0),
    (b"i--1e", FaultKind::BadInteger, 0),
    (b"i00e", FaultKind::BadInteger, 0),
    (b"ie", FaultKind::BadInteger, 0),
    (b"9999999999:", FaultKind::Truncated, 0),
    (b"99999999999:", FaultKind::BadLength, 0),
    (b"d1:a1:b1:a1:ce", FaultKind::KeyOrder, 7),
    (b"e", FaultKind::BadStart, 0),
];

// Whether each call answers this fault. What stands behind a value at the front is left alone.
fn is_answered(alloc: Global, input: &[u8], fault: Fault) -> bool {
    let at_front = (fault.kind != FaultKind::Trailing).then_some(fault);
    decode(alloc, input).err() == Some(fault)
        && span(alloc, input, b"a") == Err(fault)
        && decode_with_span(alloc, input, b"a").err() == Some(fault)
        && decode_front(alloc, input).err() == at_front
}

// Whether a fault is printed as its kind and its place.
fn is_printed(alloc: Global, fault: Fault) -> Result<bool, AllocError> {
    let text = format!(in alloc; "{:?} at byte {}", fault.kind, fault.offset)?;
    Ok(format!(in alloc; "{fault}")? == text)
}

#[test]
fn first_faults(rt: HostRuntime) {
    for (input, kind, offset) in FAULTS {
        let fault = Fault {
            kind: *kind,
            offset: *offset,
        };
        assert!(rt; is_answered(rt.alloc(), input, fault), "{fault}");
        assert!(rt; is_printed(rt.alloc(), fault) == Ok(true));
    }
}

#[test]
fn deepest(rt: HostRuntime) {
    let mut input = [b'l'; 256];
    input[128..131].copy_from_slice(b"i1e");
    let fault = Fault {
        kind: FaultKind::Truncated,
        offset: 131,
    };
    assert!(rt; is_answered(rt.alloc(), &input[..131], fault));
    input[128..].fill(b'e');
    assert!(rt; decode(rt.alloc(), &input).is_ok());
}

// Values, and other bytes that stand behind them.
const VALUES: &[&[u8]] = &[
    b"i1e",
    b"0:",
    b"3:abc",
    b"le",
    b"de",
    b"li1e1:al1:bee",
    b"d1:\0i1e1:ad0:0:ee",
    b"d1:ai7e1:bl0:ee",
    b"llldeeee",
];

const BEHIND: &[&[u8]] = &[b"", b"e", b"x", b"i1e", b"1:", b"\0"];

// Whether the value at the front takes this many bytes, and is decoded as without what follows.
fn stands_at_front(alloc: Global, input: &[u8], length: usize) -> Result<bool, Fault> {
    let (value, used) = decode_front(alloc, input)?;
    Ok(used == length && decode(alloc, &input[..used])? == value)
}

#[test]
fn values_at_the_front(rt: HostRuntime) {
    let mut input = Vec::new(rt.alloc());
    for value in VALUES {
        for rest in BEHIND {
            input.clear();
            input.extend_from_slice(value).expect(&rt, "memory");
            input.extend_from_slice(rest).expect(&rt, "memory");
            let is_right = stands_at_front(rt.alloc(), &input, value.len());
            assert!(rt; is_right == Ok(true), "{value:?} before {rest:?}");
        }
    }
}

// A list of this many values, or a dictionary of this many keys with a value each, and another `e`.
fn long_value(alloc: Global, count: u32, start: u8) -> Result<Vec<u8>, AllocError> {
    let mut text = Vec::from_slice(alloc, &[start])?;
    let size = if start == b'd' { 8 } else { 6 };
    for number in 0..count {
        let [a, b, c, d] = number.to_be_bytes();
        text.extend_from_slice(&[b'4', b':', a, b, c, d, b'l', b'e'][..size])?;
    }
    text.extend_from_slice(b"ee")?;
    Ok(text)
}

#[test]
fn long_values_at_the_front(rt: HostRuntime) {
    for count in [300u32, 301, 1001, 4096, 70001] {
        for start in [b'l', b'd'] {
            let text = long_value(rt.alloc(), count, start).expect(&rt, "memory");
            let is_right = stands_at_front(rt.alloc(), &text, text.len().wrapping_sub(1));
            assert!(rt; is_right == Ok(true), "{count} items");
        }
    }
}

// Whether what was found is printed so.
pub(crate) fn shows<T: Debug>(alloc: Global, found: &T, text: &str) -> Result<bool, AllocError> {
    Ok(format!(in alloc; "{found:?}")?.as_str() == text)
}

// What is printed of a whole value, and of the one at the front with the bytes that it takes.
const PRINTED: &[(&[u8], &str, &str)] = &[
    (
        b"i1ei2e",
        "Err(Fault { kind: Trailing, offset: 3 })",
        "Ok((Int(1), 3))",
    ),
    (
        b"li1e1:aee",
        "Err(Fault { kind: Trailing, offset: 8 })",
        "Ok((List([Int(1), Bytes([97])]), 8))",
    ),
    (
        b"d1:ki1eed",
        "Err(Fault { kind: Trailing, offset: 8 })",
        "Ok((Dict([Pair { key: [107], value: Int(1) }]), 8))",
    ),
    (
        b"i-9223372036854775808e",
        "Ok(Int(-9223372036854775808))",
        "Ok((Int(-9223372036854775808), 22))",
    ),
    (b"0:", "Ok(Bytes([]))", "Ok((Bytes([]), 2))"),
    (b"le", "Ok(List([]))", "Ok((List([]), 2))"),
    (b"de", "Ok(Dict([]))", "Ok((Dict([]), 2))"),
];

fn has_value(alloc: Global, input: &[u8], text: &str) -> Result<bool, AllocError> {
    shows(alloc, &decode(alloc, input), text)
}

fn has_front(alloc: Global, input: &[u8], text: &str) -> Result<bool, AllocError> {
    shows(alloc, &decode_front(alloc, input), text)
}

#[test]
fn values(rt: HostRuntime) {
    for (input, whole, front) in PRINTED {
        assert!(rt; has_value(rt.alloc(), input, whole) == Ok(true), "{whole}");
        assert!(rt; has_front(rt.alloc(), input, front) == Ok(true), "{front}");
    }
}

// Whether a dictionary is canonical, with 7 under `a`, another value under `b`, and none under `c`.
fn finds_keys(alloc: Global, text: &[u8]) -> Result<bool, Fault> {
    let v = decode(alloc, text)?;
    Ok(
        v.is_canonical()
            && matches!(v.get(b"a"), Some(Value::Int(7)))
            && v.get(b"b").is_some()
            && v.get(b"c").is_none(),
    )
}

#[test]
fn looks_up_keys(rt: HostRuntime) {
    assert!(rt; finds_keys(rt.alloc(), b"d1:ai7e1:bdee") == Ok(true));
    assert!(rt; Value::Int(7).get(b"a").is_none());
}

#[test]
fn canonical_or_not(rt: HostRuntime) {
    let mut v = decode(rt.alloc(), b"d1:ai2e1:bi1ee").expect(&rt, "a dictionary");
    if let Value::Dict(pairs) = &mut v {
        pairs.reverse();
    }
    assert!(rt; !v.is_canonical() && matches!(v.get(b"a"), Some(Value::Int(2))));
}

// Inputs, and the bytes of the value under `info`.
const SPANS: &[(&[u8], Option<&[u8]>)] = &[
    (b"d4:infod1:ai1ee4:name1:xe", Some(b"d1:ai1ee")),
    (b"d4:infole4:name1:xe", Some(b"le")),
    (b"d4:name4:infoe", None),
    (b"l4:infoe", None),
    (b"i7e", None),
];

// Whether both calls find this span of the value under `info`.
fn has_span(alloc: Global, input: &[u8], want: Option<&[u8]>) -> Result<bool, Fault> {
    let (_, found) = decode_with_span(alloc, input, b"info")?;
    Ok(found == want && span(alloc, input, b"info")? == want)
}

#[test]
fn spans(rt: HostRuntime) {
    for (input, want) in SPANS {
        assert!(rt; has_span(rt.alloc(), input, *want) == Ok(true));
    }
}

// Whether a value is read, and written in full.
pub(crate) fn copies<W: Sink>(alloc: Global, text: &[u8], out: &mut W) -> bool {
    match decode(alloc, text) {
        Ok(value) => value.is_canonical() && encode(&value, out).is_ok(),
        Err(_) => false,
    }
}

// Whether a sink was not flushed, and then is.
fn is_flushed_once(out: &mut MemSink) -> bool {
    let is_new = !out.is_flushed() && out.flushes() == 0;
    is_new && out.flush().is_ok() && out.is_flushed() && out.flushes() == 1
}

const SPELLING: &[u8] = b"d0:i-12e1:ali0e3:abcdeee";

// The spelling that is read is written, by a sink that takes a byte a call.
#[test]
fn writes_what_was_read(rt: HostRuntime) {
    let room = MemSink::with_room(rt.alloc(), 64).expect(&rt, "memory");
    let mut out = room.at_most(1);
    assert!(rt; copies(rt.alloc(), SPELLING, &mut out) && out.failures() == 0);
    assert!(rt; out.written() == SPELLING && is_flushed_once(&mut out));
}

#[test]
fn writes_until_it_is_full(rt: HostRuntime) {
    let mut out = MemSink::with_room(rt.alloc(), 5).expect(&rt, "memory");
    assert!(rt; !copies(rt.alloc(), SPELLING, &mut out) && out.written() == b"d0:i-".as_slice());
}
