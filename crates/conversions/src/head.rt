//! The front of a frame: its length, and of its body what a request is made of.
ghost use Rattle.std.specs.Prelude.{◌≡◌, ◌+◌, ◌^◌, ◌<◌, ◌≤◌, ◌++◌, ℕ, List, length, take, MatchBool, MatchOption};
ghost use Rattle.wire.specs.Frames.{IsPartial, four_bytes};
ghost use Rattle.conversions.specs.Steps.{BeginsHashes, ConvertsHead, IsHeadOf, PutsRequest};

use crate::outgoing::{Outgoing, put};
use benc::{Sink, WriteFault};
use wire::{ASK_SIZE, Direction, REQUEST_ID, is_hashes, number_at};

// How many bytes the length of a frame has.
const LENGTH: usize = 4;

// The byte of the direction of a frame that went out.
const WENT_OUT: u8 = 1;

// What stands before the fields of a hash request that went out: a direction, a length and an id.
const REQUEST: [u8; 6] = [WENT_OUT, 0, 0, 0, ASK_SIZE as u8, REQUEST_ID];

/// How many bytes a head has at most: a length, and the size of a hash request.
pub(crate) const LONGEST_HEAD: usize = LENGTH + ASK_SIZE as usize;

/// How many bytes the head of the frame has that begins here, if they are all there.
pub(crate) fn head_len(bytes: &[u8]) -> Option<usize>
    ensures { MatchOption result
        (IsPartial bytes.now × (length bytes.now < LONGEST_HEAD))
        (λ size. (size ≤ length bytes.now) × IsHeadOf (take size bytes.now) size) }
{
    if bytes.len() < 4 {
        return None;
    }
    let size = LENGTH + number_at(bytes).min(ASK_SIZE) as usize;
    if bytes.len() < size { None } else { Some(size) }
}

/// Converts a head, and answers how many bytes of its body follow.
pub(crate) fn convert_head<W: Sink>(
    out: &mut W,
    outgoing: &mut Outgoing,
    head: &[u8],
) -> Result<usize, WriteFault>
    requires { IsHeadOf head.now (length head.now) }
    ensures { ConvertsHead head.now (W.seen out.old) (W.seen out.new)
        outgoing.old.items outgoing.new.items result }
{
    put_request(out, outgoing, head)?;
    put(out, outgoing, &[Direction::In.byte()])?;
    put(out, outgoing, head)?;
    Ok(number_at(head) as usize + LENGTH - head.len())
}

// Takes the request that goes before a hashes message, if the head is that of one.
fn put_request<W: Sink>(out: &mut W, outgoing: &mut Outgoing, head: &[u8]) -> Result<(), WriteFault>
    requires { IsHeadOf head.now (length head.now) }
    ensures { PutsRequest head.now (W.seen out.old) (W.seen out.new)
        outgoing.old.items outgoing.new.items result }
{
    if begins_hashes(head) {
        put(out, outgoing, &REQUEST)?;
        put(out, outgoing, &head[LENGTH + 1..])?;
    }
    Ok(())
}

// Whether the head is that of a hashes message of right size.
fn begins_hashes(head: &[u8]) -> bool
    requires { 4 ≤ length head.now }
    ensures { (len : ℕ) (front : List ℕ) → len < 2 ^ 32 → head.now ≡ four_bytes len ++ front
        → MatchBool result (BeginsHashes len front) (¬ BeginsHashes len front) }
{
    4 < head.len() && is_hashes(head[4], number_at(head))
}
