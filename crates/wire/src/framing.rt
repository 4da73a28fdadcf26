//! Bytes from a source: one frame, or as many as are wanted, or why fewer came.
ghost use Rattle.std.specs.Prelude.{◌≡◌, ◌≤◌, ◌<◌, ◌-◌, ℕ, [], List, length, take, MatchResult, OnOk, OnErr, IsErrOf, vec_capacity, vec_len, ◌≢◌};
ghost use Rattle.wire.specs.Head.{IsBodyWithHead};
ghost use Rattle.wire.specs.Meaning.{max_kept};
ghost use Rattle.wire.specs.Reading.{GivesAll, GivesBody, StopsInBody, Gives, GaveFaultless, GivesLength, StopsShort, StopsInLength};
ghost use Rattle.wire.specs.Room.{GrowsToBound, RoomAfter, RoomAfterCall, RoomAfterFault};

use crate::fault::FrameFault;
use crate::frame::Head;
use crate::kind::MAX_BODY;
use crate::parse::number_at;
use benc::Source;
use std::alloc::AllocError as NoMemory;

// What is kept of the longest body: all but its id.
const MAX_KEPT: usize = MAX_BODY as usize - 1;

/// Reads the next frame, or `None` at the end of the source.
pub(crate) fn read_frame<R: Source>(
    source: &mut R,
    kept: &mut Vec<u8>,
) -> Result<Option<Head>, FrameFault>
    ensures bytes { Gives (R.seen source.old) (R.seen source.new)
        (λ body head. IsBodyWithHead head kept.new.items body) result }
    ensures bounded { length kept.old.items ≤ max_kept → length kept.new.items ≤ max_kept }
    ensures room { RoomAfterCall (λ head. head) (vec_capacity kept.old) (vec_capacity kept.new)
        result }
    ensures enough { max_kept ≤ vec_capacity kept.old
        → vec_capacity kept.new ≡ vec_capacity kept.old }
    ensures memory { IsErrOf result FrameFault.NoMemory → vec_capacity kept.old < max_kept }
{
    match read_length(source)? {
        None => Ok(None),
        Some(len) => Ok(Some(read_body(source, kept, len)?)),
    }
}

/// Reads the body of this length.
pub(crate) fn read_body<R: Source>(
    source: &mut R,
    kept: &mut Vec<u8>,
    len: u32,
) -> Result<Head, FrameFault>
    ensures bytes { MatchResult result
        (GivesBody (R.seen source.old) (R.seen source.new) len
        (λ body head. IsBodyWithHead head kept.new.items body))
        (StopsInBody (R.seen source.old) (R.seen source.new) len) }
    ensures bounded { length kept.old.items ≤ max_kept → length kept.new.items ≤ max_kept }
    ensures room { MatchResult result
        (λ head. RoomAfter head (vec_capacity kept.old) (vec_capacity kept.new))
        (λ why. RoomAfterFault why (vec_capacity kept.old) (vec_capacity kept.new)) }
    ensures enough { max_kept ≤ vec_capacity kept.old
        → vec_capacity kept.new ≡ vec_capacity kept.old }
    ensures memory { IsErrOf result FrameFault.NoMemory → vec_capacity kept.old < max_kept }
{
    if len == 0 {
        return Ok(Head::KeepAlive);
    }
    let mut id = [0u8; 1];
    read_exact(source, &mut id)?;
    let head = Head::of(id[0], len);
    match head {
        Head::Kept { .. } => keep(source, kept, len - 1)?,
        _ => skip(source, len - 1)?,
    }
    Ok(head)
}

/// Takes the room for the longest body that is kept.
pub(crate) fn take_room(kept: &mut Vec<u8>) -> Result<(), NoMemory>
    ensures grows { OnOk result (GrowsToBound (vec_capacity kept.old) (vec_capacity kept.new)) }
    ensures refused { OnErr result (vec_capacity kept.new ≡ vec_capacity kept.old) }
    ensures memory { OnErr result (vec_capacity kept.old < max_kept) }
    ensures unchanged { kept.new.items ≡ kept.old.items }
{
    if kept.capacity() < MAX_KEPT {
        kept.reserve_exact(MAX_KEPT - kept.len())?;
    }
    Ok(())
}

// Reads this many bytes to the front of what is kept. The first call makes the room.
fn keep<R: Source>(source: &mut R, kept: &mut Vec<u8>, count: u32) -> Result<(), FrameFault>
    requires some { 0 < count }
    requires bounded { count ≤ max_kept }
    ensures bytes { GivesAll (R.seen source.old) (R.seen source.new) (take count kept.new.items)
        count result }
    ensures room { OnOk result (count ≤ length kept.new.items) }
    ensures bounded { length kept.old.items ≤ max_kept → length kept.new.items ≤ max_kept }
    ensures grows { OnOk result (GrowsToBound (vec_capacity kept.old) (vec_capacity kept.new)) }
    ensures fault { MatchResult result (λ _. Unit {0})
        (λ why. RoomAfterFault why (vec_capacity kept.old) (vec_capacity kept.new)) }
    ensures memory { IsErrOf result FrameFault.NoMemory → vec_capacity kept.old < max_kept }
{
    take_room(kept)?;
    lengthen(kept);
    fill_front(source, kept.as_mut_slice(), count as usize)
}

// Makes what is kept as long as the longest body, for which there is room.
fn lengthen(kept: &mut Vec<u8>)
    requires { max_kept ≤ vec_capacity kept.old }
    ensures long { max_kept ≤ vec_len kept.new }
    ensures bounded { length kept.old.items ≤ max_kept → length kept.new.items ≤ max_kept }
    ensures capacity { vec_capacity kept.new ≡ vec_capacity kept.old }
{
    'zeros: while kept.len() < MAX_KEPT {
        kept.push_reserved(0);
    }
}

// Reads this many bytes to the front of the room.
fn fill_front<R: Source>(source: &mut R, room: &mut [u8], count: usize) -> Result<(), FrameFault>
    requires { count ≤ length room.old }
    ensures bytes { GivesAll (R.seen source.old) (R.seen source.new) (take count room.new) count
        result }
    ensures no_memory { ¬ IsErrOf result FrameFault.NoMemory }
{
    read_exact(source, &mut room[..count])
}

// How many bytes are skipped at once, at most.
const SCRATCH: usize = 4096;

/// Fills the buffer.
pub(crate) fn read_exact<R: Source>(source: &mut R, buf: &mut [u8]) -> Result<(), FrameFault>
    ensures bytes { GivesAll (R.seen source.old) (R.seen source.new) buf.new (length buf.old)
        result }
    ensures no_memory { ¬ IsErrOf result FrameFault.NoMemory }
{
    let mut filled = 0;
    'reads: while filled < buf.len() {
        match source.read(&mut buf[filled..])? {
            0 => return Err(FrameFault::Truncated),
            count => filled += count,
        }
    }
    Ok(())
}

/// The length of the next frame, or `None` at the end of the source.
pub(crate) fn read_length<R: Source>(source: &mut R) -> Result<Option<u32>, FrameFault>
    ensures bytes { MatchResult result (GivesLength (R.seen source.old) (R.seen source.new))
        (StopsInLength (R.seen source.old) (R.seen source.new)) }
    ensures no_memory { ¬ IsErrOf result FrameFault.NoMemory }
{
    let mut bytes = [0u8; 4];
    let first = source.read(&mut bytes)?;
    if first == 0 {
        return Ok(None);
    }
    read_exact(source, &mut bytes[first..])?;
    Ok(Some(number_at(&bytes)))
}

/// Reads this many bytes and forgets them.
pub(crate) fn skip<R: Source>(source: &mut R, count: u32) -> Result<(), FrameFault>
    ensures bytes { MatchResult result
        (λ _. (bytes : List ℕ) × GaveFaultless (R.seen source.old) (R.seen source.new) bytes
        × (length bytes ≡ count))
        (StopsShort (R.seen source.old) (R.seen source.new) count) }
    ensures no_memory { ¬ IsErrOf result FrameFault.NoMemory }
{
    let mut scratch = [0u8; SCRATCH];
    let mut left = count as usize;
    'parts: while left > 0 {
        let part = left.min(SCRATCH);
        match source.read(&mut scratch[..part])? {
            0 => return Err(FrameFault::Truncated),
            taken => left -= taken,
        }
    }
    Ok(())
}
