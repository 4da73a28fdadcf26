//! Names and paths as they are printed, short lines, and how a text goes out.
ghost use Rattle.std.specs.Prelude.{◌≡◌, ℕ, List, length, map, OnOk, true, ◌+◌, ◌*◌, ◌≤◌, ◌++◌, [], decimal};
ghost use Rattle.benc.specs.Device.{SinkSeen, Wrote, WroteAndFlushed};
ghost use Rattle.printing.specs.Text.{escape_of, escaped, is_special, path_text};
ghost use Rattle.hex.specs.Hex.{encode_lower};

use arrayvec::ArrayVec;
use benc::{DeviceFault, Sink, WriteFault, write_all};
use itoa::Buffer;
use std::convert::AsStr;
use std::marker::Model;

/// Writes a text as it is printed: the bytes below 0x20, 0x7F and the backslash as `\x` and two
/// hexadecimal digits, and between these all bytes as they are.
pub fn write_escaped<W: Sink>(out: &mut W, text: &[u8]) -> Result<(), DeviceFault>
    ensures { Wrote (W.seen out.old) (W.seen out.new) result (escaped text.now) }
{
    let mut start = 0;
    'bytes: for i in 0..text.len() {
        if is_special(text[i]) {
            write_all(out, &text[start..i])?;
            write_all(out, &escape(text[i]))?;
            start = i + 1;
        }
    }
    write_all(out, &text[start..])
}

/// Writes a path as it is printed: its components, joined by `/`.
pub fn write_path<W: Sink, S: AsStr>(out: &mut W, path: &[S]) -> Result<(), DeviceFault>
    ensures { Wrote (W.seen out.old) (W.seen out.new) result (path_text (map S.text path.now)) }
{
    let Some((first, others)) = path.split_first() else {
        return Ok(());
    };
    write_escaped(out, first.as_str().as_bytes())?;
    'parts: for part in others {
        write_all(out, b"/")?;
        write_escaped(out, part.as_str().as_bytes())?;
    }
    Ok(())
}

/// Writes a line as it is and flushes once. After `WriteFault` a prefix of the line went out.
pub fn write_line<W: Sink>(out: &mut W, line: &[u8]) -> Result<(), WriteFault>
    ensures { WroteAndFlushed (W.seen out.old) (W.seen out.new) result line.now }
{
    let written = write_all(out, line);
    flush_after(out, written)
}

/// Flushes once if all was written, and not after a fault.
pub fn flush_after<W: Sink>(out: &mut W, written: Result<(), DeviceFault>) -> Result<(), WriteFault>
    ensures { (start : SinkSeen) (text : List ℕ) → Wrote start (W.seen out.old) written text
        → WroteAndFlushed start (W.seen out.new) result text }
{
    written?;
    out.flush()?;
    Ok(())
}

// Whether a byte is not printed as it stands.
fn is_special(byte: u8) -> bool
    ensures { result ≡ is_special byte }
{
    byte < 0x20 || byte == 0x7f || byte == b'\\'
}

// `\x` and two digits.
fn escape(byte: u8) -> [u8; 4]
    requires { is_special byte ≡ true }
    ensures { result ≡ escape_of byte }
{
    let mut digits = [0u8; 2];
    let _ = hex::encode_to_slice(&[byte], &mut digits);
    [b'\\', b'x', digits[0], digits[1]]
}

/// A line of at most 256 bytes, put together in place.
#[derive(Drop)]
pub struct ShortLine {
    bytes: ArrayVec<u8, 256>,
}

impl Model for ShortLine {
    ghost use Rattle.std.specs.Prelude.{ℕ, List};

    ghost Value = { List ℕ };

    ghost view = { λ l. l.bytes.items };
}

impl ShortLine {
    /// A line with nothing in it.
    pub fn new() -> ShortLine
        ensures { result ≡ [] }
    {
        ShortLine {
            bytes: ArrayVec::new(),
        }
    }

    /// The line so far.
    pub fn as_slice(&self) -> &[u8]
        ensures { result.now ≡ self.now }
    {
        &self.bytes
    }

    /// Puts these bytes at the end. Condition: the line then has at most 256 bytes.
    pub fn put(&mut self, text: &[u8])
        requires { length self.old + length text.now ≤ 256 }
        ensures text { self.new ≡ self.old ++ text.now }
        ensures len { length self.new ≡ length self.old + length text.now }
    {
        self.bytes.try_extend_from_slice(text).unwrap();
    }

    /// Puts a number at the end, in decimal. Condition: there is room for 20 digits.
    pub fn put_number(&mut self, number: u64)
        requires { length self.old + 20 ≤ 256 }
        ensures text { self.new ≡ self.old ++ decimal number }
        ensures bound { length self.new ≤ length self.old + 20 }
    {
        let mut buffer = Buffer::new();
        self.put(buffer.format(number).as_bytes());
    }

    /// Puts a digest at the end, in lower case hexadecimal. Conditions: it has at most 32 bytes,
    /// and there is room for 64 digits.
    pub fn put_digest(&mut self, digest: &[u8])
        requires bound { length digest.now ≤ 32 }
        requires room { length self.old + 64 ≤ 256 }
        ensures text { self.new ≡ self.old ++ encode_lower digest.now }
        ensures len { length self.new ≡ length self.old + 2 * length digest.now }
    {
        let mut text = [0u8; 64];
        let text = &mut text[..2 * digest.len()];
        let _ = hex::encode_to_slice(digest, text);
        self.put(text);
    }
}
