//! From a value to the bytes that spell it.
ghost use Rattle.benc.specs.Device.{Wrote};
ghost use Rattle.benc.specs.Spelling.{string, integer};
ghost use Rattle.benc.specs.Text.{spelling, IsCanonical};
ghost use Rattle.benc.specs.Value.{list, dict};
ghost use Rattle.benc.specs.View.{view, items_view, pairs_view};

use crate::device::{DeviceFault, Sink, WriteFault, write_all};
use crate::value::{Pair, Value};
use itoa::Buffer;

/// Writes the one spelling of a value. It takes no memory and does not flush. After a fault a
/// prefix of the spelling went out. Condition: [`Value::is_canonical`] holds of the value.
pub fn encode<W: Sink>(v: &Value<'_>, w: &mut W) -> Result<(), WriteFault>
    requires { IsCanonical (view v.now) }
    ensures { Wrote (W.seen w.old) (W.seen w.new) result (spelling (view v.now)) }
{
    write_value(v, w)?;
    Ok(())
}

// Writes the spelling of a value, canonical or not.
#[cycle(write)]
fn write_value<W: Sink>(v: &Value<'_>, w: &mut W) -> Result<(), DeviceFault>
    ensures { Wrote (W.seen w.old) (W.seen w.new) result (spelling (view v.now)) }
{
    match v {
        Value::Int(n) => write_integer(*n, w),
        Value::Bytes(text) => write_string(text, w),
        Value::List(items) => write_list(items, w),
        Value::Dict(pairs) => write_dict(pairs, w),
    }
}

// Writes the spelling of a list.
#[cycle(write)]
fn write_list<W: Sink>(items: &Vec<Value<'_>>, w: &mut W) -> Result<(), DeviceFault>
    ensures { Wrote (W.seen w.old) (W.seen w.new) result
        (spelling (list (items_view items.now.items))) }
{
    write_all(w, b"l")?;
    'items: for item in items {
        write_value(item, w)?;
    }
    write_all(w, b"e")
}

// Writes the spelling of a dictionary, its pairs in the order in which they stand.
#[cycle(write)]
fn write_dict<W: Sink>(pairs: &Vec<Pair<'_>>, w: &mut W) -> Result<(), DeviceFault>
    ensures { Wrote (W.seen w.old) (W.seen w.new) result
        (spelling (dict (pairs_view pairs.now.items))) }
{
    write_all(w, b"d")?;
    'pairs: for pair in pairs {
        write_string(pair.key, w)?;
        write_value(&pair.value, w)?;
    }
    write_all(w, b"e")
}

// Writes the spelling of an integer.
fn write_integer<W: Sink>(n: i64, w: &mut W) -> Result<(), DeviceFault>
    ensures { Wrote (W.seen w.old) (W.seen w.new) result (integer n) }
{
    let mut digits = Buffer::new();
    write_all(w, b"i")?;
    write_all(w, digits.format(n).as_bytes())?;
    write_all(w, b"e")
}

// Writes the spelling of a byte string.
fn write_string<W: Sink>(text: &[u8], w: &mut W) -> Result<(), DeviceFault>
    ensures { Wrote (W.seen w.old) (W.seen w.new) result (string text.now) }
{
    let mut digits = Buffer::new();
    write_all(w, digits.format(text.len()).as_bytes())?;
    write_all(w, b":")?;
    write_all(w, text)
}
