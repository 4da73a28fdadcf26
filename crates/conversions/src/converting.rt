//! The conversion of a record.
ghost use Rattle.std.specs.Prelude.{◌≡◌, ◌+◌, ◌<◌, ◌≤◌, ◌&&◌, [], length, nat_eq, take, drop, IfOk, MatchResult, OnOk};
ghost use Rattle.benc.specs.Device.{Wrote};
ghost use Rattle.printing.specs.Cut.{FailedFlush, Flushed};
ghost use Rattle.wire.specs.Records.{header};
ghost use Rattle.wire.specs.RecordLaws.{ConversionIsRecord, ConversionMeans};
ghost use Rattle.session.specs.NotedLaws.{ConversionReplaysAsFormOne, ConversionGivesTheSame};
ghost use Rattle.conversions.specs.Converting.{ConversionEnds};
ghost use Rattle.conversions.specs.Steps.{ConvertsFrames, ConvertsHeld, ConvertsRest, GivesFront, Waits};

use crate::fault::ConvertFault;
use crate::head::LONGEST_HEAD;
use crate::outgoing::{Outgoing, READ, ROOM, send};
use crate::parts::convert_part;
use benc::{DeviceFault, Sink, Source, WriteFault, write_all};
use session_laws::conversion_replays_as_form_1;
use wire::HEADER;

/// Writes the record of form 2 that a record of form 1 is: a header, and then each frame as it
/// stands, marked as one that came in. Directly before each "hashes" message of right size (BEP 52)
/// goes the "hash request" that it answers, marked as one that went out. At last it flushes. It
/// takes no memory.
///
/// `AlreadyForm2` comes if the record begins with the eight bytes of the header; then nothing went
/// out. `Read` comes if the source fails: nothing went out if what was read is a prefix of the
/// header. `Truncated` comes if the record ends inside a frame. After it, and after any other
/// `Read`, what went out begins with the conversion of all whole frames. After `Write` it is a
/// prefix of the conversion of every record of whole frames that begins with what was read. After a
/// fault nothing is flushed.
pub fn convert<R: Source, W: Sink>(source: &mut R, out: &mut W) -> Result<(), ConvertFault>
    ensures ending { ConversionEnds (R.seen source.old) (R.seen source.new)
        (W.seen out.old) (W.seen out.new) result }

    // What went out is a record of form 2, whose frames mean what the frames of form 1 do, with the
    // requests before the hashes messages.
    ensures record_of { ConversionIsRecord }
    ensures means { ConversionMeans }

    // Its replay gives what came in the verdicts of form 1, unless memory is refused for a request,
    // and with memory for all the same last trees and marks.
    ensures replays { ConversionReplaysAsFormOne }
    ensures same { ConversionGivesTheSame }
{
    conversion_replays_as_form_1();
    convert_record(source, out)
}

// The same, without the laws of what went out.
// It has the buffer in its frame, so it is not inlined.
#[inline(never)]
fn convert_record<R: Source, W: Sink>(source: &mut R, out: &mut W) -> Result<(), ConvertFault>
    ensures { ConversionEnds (R.seen source.old) (R.seen source.new)
        (W.seen out.old) (W.seen out.new) result }
{
    let mut buffer = [0u8; READ];
    let (held, more) = read_front(source, &mut buffer)?;
    if buffer[..held].starts_with(&HEADER) {
        return Err(ConvertFault::AlreadyForm2);
    }
    write_header(out)?;
    let whole = convert_rest(source, out, &mut buffer, held, more)?;
    if !whole {
        return Err(ConvertFault::Truncated);
    }
    flush(out)?;
    Ok(())
}

// Reads until the form is known: how many bytes then stand in the buffer, and whether more may
// come.
fn read_front<R: Source>(source: &mut R, buffer: &mut [u8]) -> Result<(usize, bool), DeviceFault>
    requires { 8 ≤ length buffer.old }
    ensures within { IfOk result (λ front. front.0 ≤ length buffer.new) }
    ensures front { GivesFront (R.seen source.old) (R.seen source.new) buffer.new result }
{
    let mut held = 0;
    'reads: while held < HEADER.len() && HEADER.starts_with(&buffer[..held]) {
        match source.read(&mut buffer[held..])? {
            0 => return Ok((held, false)),
            count => held += count,
        }
    }
    Ok((held, true))
}

fn write_header<W: Sink>(out: &mut W) -> Result<(), WriteFault>
    ensures { Wrote (W.seen out.old) (W.seen out.new) result header }
{
    write_all(out, &HEADER)?;
    Ok(())
}

// Converts what stands in the buffer, and what follows if more may come: answers whether the record
// ends between two frames.
fn convert_rest<R: Source, W: Sink>(
    source: &mut R,
    out: &mut W,
    buffer: &mut [u8],
    held: usize,
    more: bool,
) -> Result<bool, ConvertFault>
    requires held { held ≤ length buffer.old }
    requires room { length buffer.old ≡ READ }
    ensures { ConvertsRest more (take held buffer.old) (R.seen source.old) (R.seen source.new)
        (W.seen out.old) (W.seen out.new) result }
{
    if more {
        convert_frames(source, out, buffer, held)
    } else {
        Ok(held == 0)
    }
}

// Converts what stands in the buffer and all that follows, and answers whether the record ends
// between two frames.
fn convert_frames<R: Source, W: Sink>(
    source: &mut R,
    out: &mut W,
    buffer: &mut [u8],
    mut held: usize,
) -> Result<bool, ConvertFault>
    requires held { held ≤ length buffer.old }
    requires room { length buffer.old ≡ READ }
    ensures { ConvertsFrames (take held buffer.old) (R.seen source.old) (R.seen source.new)
        (W.seen out.old) (W.seen out.new) result }
{
    let mut outgoing = Outgoing::new();
    let mut left = 0;
    'parts: loop {
        held = convert_held(out, &mut outgoing, buffer, held, &mut left)?;
        match source.read(&mut buffer[held..])? {
            0 => return Ok(is_between(held, left)),
            count => held += count,
        }
    }
}

// Whether a record that ends here ends between two frames: no bytes of a head are held, and none of
// a body are left.
fn is_between(held: usize, left: usize) -> bool
    ensures { result ≡ (nat_eq held 0 && nat_eq left 0) }
{
    held == 0 && left == 0
}

// Converts what stands in the buffer, and writes it. What is less than a head stays, at the front:
// how many bytes it has.
fn convert_held<W: Sink>(
    out: &mut W,
    outgoing: &mut Outgoing,
    buffer: &mut [u8],
    held: usize,
    left: &mut usize,
) -> Result<usize, WriteFault>
    requires held { held ≤ length buffer.old }
    requires room { length buffer.old ≤ ROOM }
    requires empty { outgoing.old.items ≡ [] }
    ensures empty { OnOk result (outgoing.new.items ≡ []) }
    ensures waits { IfOk result (λ rest. Waits left.new (take rest buffer.new)
        × (rest < LONGEST_HEAD)) }
    ensures converts { ConvertsHeld (take held buffer.old) buffer.new
        (W.seen out.old) (W.seen out.new) left.old left.new result }
{
    let done = convert_part(out, outgoing, &buffer[..held], left)?;
    send(out, outgoing)?;
    Ok(move_to_front(buffer, done, held))
}

// Moves these bytes to the front of the buffer: how many they are.
fn move_to_front(buffer: &mut [u8], start: usize, end: usize) -> usize
    requires order { start ≤ end }
    requires within { end ≤ length buffer.old }
    requires few { end ≤ start + LONGEST_HEAD }
    ensures count { result + start ≡ end }
    ensures moved { take result buffer.new ≡ drop start (take end buffer.old) }
{
    let count = end - start;
    let mut moved = [0u8; LONGEST_HEAD];
    moved[..count].copy_from_slice(&buffer[start..end]);
    buffer[..count].copy_from_slice(&moved[..count]);
    count
}

fn flush<W: Sink>(out: &mut W) -> Result<(), WriteFault>
    ensures { MatchResult result
        (λ _. Flushed (W.seen out.old) (W.seen out.new))
        (λ _. FailedFlush (W.seen out.old) (W.seen out.new)) }
{
    out.flush()?;
    Ok(())
}
