//! One frame of a record from a source.
ghost use Rattle.std.specs.Prelude.{◌≡◌, ◌≢◌, ◌≤◌, ◌<◌, ◌^◌, ◌-◌, ℕ, List, length, Some, None, MatchResult, IsErrOf, vec_capacity};
ghost use Rattle.benc.specs.Device.{SourceSeen};
ghost use Rattle.wire.specs.Frames.{four_bytes};
ghost use Rattle.wire.specs.Meaning.{max_kept};
ghost use Rattle.wire.specs.Reading.{GaveFaultless};
ghost use Rattle.wire.specs.RecordReading.{GivesNext, GivesStart, StopsInRecord};
ghost use Rattle.wire.specs.RecordReader.{HasDirectedHead};
ghost use Rattle.wire.specs.Room.{RoomAfterCall, RoomAfterNext};

use crate::fault::FrameFault;
use crate::form::{Direction, Form, HEADER};
use crate::frame::Head;
use crate::framing::{read_body, read_exact, read_frame, read_length, skip};
use crate::parse::number_at;
use benc::Source;

// The second half of a header. The first half is a length as well.
const SECOND_HALF: [u8; 4] = [HEADER[4], HEADER[5], HEADER[6], HEADER[7]];

/// A frame's direction and head, or `None` at the end of the source.
pub(crate) type Found = Option<(Direction, Head)>;

/// Reads the next frame of a record, whose form is known or is given by its first bytes.
pub(crate) fn read_next<R: Source>(
    source: &mut R,
    kept: &mut Vec<u8>,
    form: Option<Form>,
) -> Result<(Form, Found), FrameFault>
    ensures bytes { MatchResult result
        (λ next. GivesNext form next.0 (R.seen source.old) (R.seen source.new)
        (HasDirectedHead kept.new.items) next.1)
        (StopsInRecord form (R.seen source.old) (R.seen source.new)) }
    ensures bounded { length kept.old.items ≤ max_kept → length kept.new.items ≤ max_kept }
    ensures room { RoomAfterNext (vec_capacity kept.old) (vec_capacity kept.new) result }
    ensures enough { max_kept ≤ vec_capacity kept.old
        → vec_capacity kept.new ≡ vec_capacity kept.old }
    ensures memory { IsErrOf result FrameFault.NoMemory → vec_capacity kept.old < max_kept }
{
    match form {
        None => read_first(source, kept),
        Some(Form::One) => Ok((Form::One, read_incoming(source, kept)?)),
        Some(Form::Two) => Ok((Form::Two, read_directed(source, kept)?)),
    }
}

// Reads the first frame, and what stands before it.
fn read_first<R: Source>(source: &mut R, kept: &mut Vec<u8>) -> Result<(Form, Found), FrameFault>
    ensures bytes { MatchResult result
        (λ next. GivesNext None next.0 (R.seen source.old) (R.seen source.new)
        (HasDirectedHead kept.new.items) next.1)
        (StopsInRecord None (R.seen source.old) (R.seen source.new)) }
    ensures bounded { length kept.old.items ≤ max_kept → length kept.new.items ≤ max_kept }
    ensures room { RoomAfterNext (vec_capacity kept.old) (vec_capacity kept.new) result }
    ensures enough { max_kept ≤ vec_capacity kept.old
        → vec_capacity kept.new ≡ vec_capacity kept.old }
    ensures memory { IsErrOf result FrameFault.NoMemory → vec_capacity kept.old < max_kept }
{
    match read_length(source)? {
        None => Ok((Form::One, None)),
        Some(u32::MAX) => read_marked(source, kept),
        Some(len) => Ok((
            Form::One,
            Some((Direction::In, read_body(source, kept, len)?)),
        )),
    }
}

// Reads on after the first half of a header, which is a length as well.
fn read_marked<R: Source>(source: &mut R, kept: &mut Vec<u8>) -> Result<(Form, Found), FrameFault>
    ensures bytes { (start : SourceSeen)
        → GaveFaultless start (R.seen source.old) (four_bytes (2 ^ 32 - 1)) → MatchResult result
        (λ next. GivesNext None next.0 start (R.seen source.new)
        (HasDirectedHead kept.new.items) next.1)
        (StopsInRecord None start (R.seen source.new)) }
    ensures bounded { length kept.old.items ≤ max_kept → length kept.new.items ≤ max_kept }
    ensures room { RoomAfterNext (vec_capacity kept.old) (vec_capacity kept.new) result }
    ensures enough { max_kept ≤ vec_capacity kept.old
        → vec_capacity kept.new ≡ vec_capacity kept.old }
    ensures memory { IsErrOf result FrameFault.NoMemory → vec_capacity kept.old < max_kept }
{
    let mut half = [0u8; 4];
    read_exact(source, &mut half)?;
    if half == SECOND_HALF {
        Ok((Form::Two, read_directed(source, kept)?))
    } else {
        skip(source, u32::MAX - 4)?;
        Ok((
            Form::One,
            Some((Direction::In, Head::of(half[0], u32::MAX))),
        ))
    }
}

// Reads the next frame of a record of form 1.
fn read_incoming<R: Source>(source: &mut R, kept: &mut Vec<u8>) -> Result<Found, FrameFault>
    ensures bytes { MatchResult result
        (GivesNext (Some Form.One) Form.One (R.seen source.old) (R.seen source.new)
        (HasDirectedHead kept.new.items))
        (StopsInRecord (Some Form.One) (R.seen source.old) (R.seen source.new)) }
    ensures bounded { length kept.old.items ≤ max_kept → length kept.new.items ≤ max_kept }
    ensures room { RoomAfterCall (λ f. f.1) (vec_capacity kept.old) (vec_capacity kept.new) result }
    ensures enough { max_kept ≤ vec_capacity kept.old
        → vec_capacity kept.new ≡ vec_capacity kept.old }
    ensures memory { IsErrOf result FrameFault.NoMemory → vec_capacity kept.old < max_kept }
{
    match read_frame(source, kept)? {
        None => Ok(None),
        Some(head) => Ok(Some((Direction::In, head))),
    }
}

// Reads a direction and the frame after it.
fn read_directed<R: Source>(source: &mut R, kept: &mut Vec<u8>) -> Result<Found, FrameFault>
    ensures bytes { MatchResult result
        (GivesNext (Some Form.Two) Form.Two (R.seen source.old) (R.seen source.new)
        (HasDirectedHead kept.new.items))
        (StopsInRecord (Some Form.Two) (R.seen source.old) (R.seen source.new)) }
    ensures bounded { length kept.old.items ≤ max_kept → length kept.new.items ≤ max_kept }
    ensures room { RoomAfterCall (λ f. f.1) (vec_capacity kept.old) (vec_capacity kept.new) result }
    ensures enough { max_kept ≤ vec_capacity kept.old
        → vec_capacity kept.new ≡ vec_capacity kept.old }
    ensures memory { IsErrOf result FrameFault.NoMemory → vec_capacity kept.old < max_kept }
{
    match read_start(source)? {
        None => Ok(None),
        Some((direction, len)) => Ok(Some((direction, read_body(source, kept, len)?))),
    }
}

// Reads a direction and the length after it, or `None` at the end of the source. One read is
// enough if the source gives both at once.
fn read_start<R: Source>(source: &mut R) -> Result<Option<(Direction, u32)>, FrameFault>
    ensures bytes { MatchResult result
        (GivesStart (R.seen source.old) (R.seen source.new))
        (StopsInRecord (Some Form.Two) (R.seen source.old) (R.seen source.new)) }
    ensures no_memory { ¬ IsErrOf result FrameFault.NoMemory }
{
    let mut start = [0u8; 5];
    let count = source.read(&mut start)?;
    if count == 0 {
        return Ok(None);
    }
    let Some(direction) = Direction::of(start[0]) else {
        return Err(FrameFault::BadDirection);
    };
    read_exact(source, &mut start[count..])?;
    Ok(Some((direction, number_at(&start[1..]))))
}
