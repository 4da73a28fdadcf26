//! The text of a line.
ghost use Rattle.std.specs.Prelude.{◌≡◌, ◌≤◌, ◌++◌, decimal, length, map};
ghost use Rattle.benc.specs.Device.{Wrote};
ghost use Rattle.hex.specs.Hex.{encode_lower};
ghost use Rattle.lines.specs.Rows.{item_of};
ghost use Rattle.lines.specs.Texts.{after_part, item_text, items_text};

use crate::gathered::Gathered;
use crate::part::Part;
use benc::{DeviceFault, Sink, write_all};
use itoa::Buffer;
use printing::{write_escaped, write_path};

/// Writes the text of these parts, in one write if the line has room in place. After a fault a
/// prefix of it went out.
pub(crate) fn write_text<W: Sink>(parts: &[Part<'_>], out: &mut W) -> Result<(), DeviceFault>
    ensures { Wrote (W.seen out.old) (W.seen out.new) result
        (items_text (map item_of parts.now)) }
{
    let mut line = Gathered::new();
    match write_parts(parts, &mut line) {
        Ok(()) => write_all(out, line.as_slice()),
        Err(_) => write_parts(parts, out),
    }
}

// Writes these parts, each with what stands behind it.
#[tactic(auto, unfolding(crate::specs::Texts::items_text))]
fn write_parts<W: Sink>(parts: &[Part<'_>], out: &mut W) -> Result<(), DeviceFault>
    ensures { Wrote (W.seen out.old) (W.seen out.new) result
        (items_text (map item_of parts.now)) }
{
    let Some((part, others)) = parts.split_first() else {
        return Ok(());
    };
    write_part(part, out)?;
    write_all(out, behind(part, others))?;
    write_parts(others, out)
}

// What stands behind a part, by the parts after it.
fn behind(part: &Part<'_>, others: &[Part<'_>]) -> &'static [u8]
    ensures { result.now ≡ after_part (item_of part.now) (map item_of others.now) }
{
    if others.is_empty() {
        return b"\n";
    }
    match part {
        Part::Start(_, _) => b"-",
        Part::Over(_, _) => b"/",
        Part::Unprinted(_, _) => b"",
        _ => b" ",
    }
}

fn write_part<W: Sink>(part: &Part<'_>, out: &mut W) -> Result<(), DeviceFault>
    ensures { Wrote (W.seen out.old) (W.seen out.new) result (item_text (item_of part.now)) }
{
    match part {
        Part::Word(word) => write_all(out, word.as_bytes()),
        Part::Number(_, number) | Part::Start(_, number) | Part::Over(_, number) => {
            write_number(*number, out)
        }
        Part::Name(_, name) => write_all(out, name.as_bytes()),
        Part::Code(_, letter, number) => write_code(letter.as_bytes(), *number, out),
        Part::Sha256(_, digest) => write_hex(*digest, out),
        Part::Sha1(_, digest) => write_hex(*digest, out),
        Part::Text(_, text) => write_escaped(out, text.as_bytes()),
        Part::Path(_, path) => write_path(out, path),
        Part::OwnPath(_, path) => write_path(out, path),
        Part::Unprinted(_, _) => Ok(()),
    }
}

/// Writes a letter and a number behind it.
pub(crate) fn write_code<W: Sink>(
    letter: &[u8],
    number: u64,
    out: &mut W,
) -> Result<(), DeviceFault>
    ensures { Wrote (W.seen out.old) (W.seen out.new) result (letter.now ++ decimal number) }
{
    write_all(out, letter)?;
    write_number(number, out)
}

/// Writes a number in decimal.
pub(crate) fn write_number<W: Sink>(number: u64, out: &mut W) -> Result<(), DeviceFault>
    ensures { Wrote (W.seen out.old) (W.seen out.new) result (decimal number) }
{
    let mut buffer = Buffer::new();
    write_all(out, buffer.format(number).as_bytes())
}

/// Writes a digest in lower case hexadecimal. Condition: it has at most 32 bytes.
pub(crate) fn write_hex<W: Sink>(digest: &[u8], out: &mut W) -> Result<(), DeviceFault>
    requires { length digest.now ≤ 32 }
    ensures { Wrote (W.seen out.old) (W.seen out.new) result (encode_lower digest.now) }
{
    let mut text = [0u8; 64];
    let text = &mut text[..2 * digest.len()];
    let _ = hex::encode_to_slice(digest, text);
    write_all(out, text)
}
