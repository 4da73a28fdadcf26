//! Strings of JSON (RFC 8259, section 7).
ghost use Rattle.std.specs.Prelude.{◌≡◌, ◌∷◌, ◌++◌, [], List, ℕ, codes, map};
ghost use Rattle.std.specs.List.{join_with_byte};
ghost use Rattle.hex.specs.Hex.{encode_lower};
ghost use Rattle.benc.specs.Device.{SinkSeen, Wrote};
ghost use Rattle.filetree.specs.FileTree.{slash};
ghost use Rattle.lines.specs.Strings.{quoted, short_escape, string_byte, string_bytes};

use benc::{DeviceFault, Sink, write_all};
use std::convert::AsStr;

/// Writes a text as a JSON string. After a fault a prefix of it went out.
pub(crate) fn write_string<W: Sink>(text: &[u8], out: &mut W) -> Result<(), DeviceFault>
    ensures { Wrote (W.seen out.old) (W.seen out.new) result (quoted text.now) }
{
    write_all(out, b"\"")?;
    let said = write_inside(text, out);
    close_string(out, said)
}

/// Writes a path as a JSON string: its components with `/` between them. After a fault a prefix of
/// it went out.
pub(crate) fn write_path_string<W: Sink, S: AsStr>(
    path: &[S],
    out: &mut W,
) -> Result<(), DeviceFault>
    ensures { Wrote (W.seen out.old) (W.seen out.new) result
        (quoted (join_with_byte slash (map S.text path.now))) }
{
    write_all(out, b"\"")?;
    let said = write_joined(path, out);
    close_string(out, said)
}

/// Writes the quote behind a string, if all of the string was written.
pub(crate) fn close_string<W: Sink>(
    out: &mut W,
    said: Result<(), DeviceFault>,
) -> Result<(), DeviceFault>
    ensures { (start : SinkSeen) (text : List ℕ) → Wrote start (W.seen out.old) said text
        → Wrote start (W.seen out.new) result (text ++ codes "\"") }
{
    match said {
        Ok(()) => write_all(out, b"\""),
        Err(fault) => Err(fault),
    }
}

// Writes the components of a path, with `/` between them.
fn write_joined<W: Sink, S: AsStr>(path: &[S], out: &mut W) -> Result<(), DeviceFault>
    ensures { Wrote (W.seen out.old) (W.seen out.new) result
        (string_bytes (join_with_byte slash (map S.text path.now))) }
{
    let Some((first, others)) = path.split_first() else {
        return Ok(());
    };
    write_inside(first.as_str().as_bytes(), out)?;
    'parts: for part in others {
        write_all(out, b"/")?;
        write_inside(part.as_str().as_bytes(), out)?;
    }
    Ok(())
}

// Writes the bytes of a JSON string without its quotes.
fn write_inside<W: Sink>(text: &[u8], out: &mut W) -> Result<(), DeviceFault>
    ensures { Wrote (W.seen out.old) (W.seen out.new) result (string_bytes text.now) }
{
    'bytes: for byte in text {
        write_byte(*byte, out)?;
    }
    Ok(())
}

// Writes a byte as it stands in a JSON string.
fn write_byte<W: Sink>(byte: u8, out: &mut W) -> Result<(), DeviceFault>
    ensures { Wrote (W.seen out.old) (W.seen out.new) result (string_byte byte) }
{
    let letter = short_escape(byte);
    if letter > 0 {
        return write_all(out, &[b'\\', letter]);
    }
    if byte < 32 {
        write_all(out, b"\\u00")?;
        return write_all(out, &digits_of(byte));
    }
    write_all(out, &[byte])
}

// The letter of a byte's short escape, or 0 if it has none.
fn short_escape(byte: u8) -> u8
    ensures { result ≡ short_escape byte }
{
    match byte {
        b'"' => b'"',
        b'\\' => b'\\',
        0x08 => b'b',
        b'\t' => b't',
        b'\n' => b'n',
        0x0c => b'f',
        b'\r' => b'r',
        _ => 0,
    }
}

// The two digits of a byte in lower case hexadecimal.
fn digits_of(byte: u8) -> [u8; 2]
    ensures { result ≡ encode_lower (byte ∷ []) }
{
    let mut digits = [0u8; 2];
    let _ = hex::encode_to_slice(&[byte], &mut digits);
    digits
}
