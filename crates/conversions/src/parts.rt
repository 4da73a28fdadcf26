//! The conversion of bytes as they come.
ghost use Rattle.std.specs.Prelude.{◌≡◌, ◌+◌, ◌≤◌, ◌⊎◌, length, drop, IfOk};
ghost use Rattle.conversions.specs.Steps.{ConvertsPart, Waits};

use crate::head::{convert_head, head_len};
use crate::outgoing::{Outgoing, ROOM, put};
use benc::{Sink, WriteFault};

/// Converts these bytes, after this many that are left of a body, and answers how many of them: the
/// others are less than the head of a frame.
pub(crate) fn convert_part<W: Sink>(
    out: &mut W,
    outgoing: &mut Outgoing,
    part: &[u8],
    left: &mut usize,
) -> Result<usize, WriteFault>
    requires { length part.now ≤ ROOM }
    ensures within { IfOk result (λ done. done ≤ length part.now) }
    ensures waits { IfOk result (λ done. Waits left.new (drop done part.now)) }
    ensures converts { ConvertsPart part.now (W.seen out.old) (W.seen out.new)
        outgoing.old.items outgoing.new.items left.old left.new result }
{
    let mut done = 0;
    'frames: loop {
        done += pass_on(out, outgoing, &part[done..], left)?;
        let Some(size) = head_len(&part[done..]) else {
            return Ok(done);
        };
        *left = convert_head(out, outgoing, &part[done..done + size])?;
        done += size;
    }
}

// Passes on what is there of the body that has begun.
fn pass_on<W: Sink>(
    out: &mut W,
    outgoing: &mut Outgoing,
    bytes: &[u8],
    left: &mut usize,
) -> Result<usize, WriteFault>
    requires { length bytes.now ≤ ROOM }
    ensures counts { IfOk result (λ count. (count ≤ length bytes.now)
        × (left.new + count ≡ left.old) × (left.new ≡ 0 ⊎ count ≡ length bytes.now)) }
    ensures converts { ConvertsPart bytes.now (W.seen out.old) (W.seen out.new)
        outgoing.old.items outgoing.new.items left.old left.new result }
{
    let count = bytes.len().min(*left);
    put(out, outgoing, &bytes[..count])?;
    *left -= count;
    Ok(count)
}
