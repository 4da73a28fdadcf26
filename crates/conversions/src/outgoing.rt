//! Bytes on their way to a sink: many small parts go out in one call.
ghost use Rattle.std.specs.Prelude.{◌≡◌, ◌≤◌, ◌++◌, [], ℕ, List, length, MatchResult, OnOk};
ghost use Rattle.benc.specs.Device.{Broke, SinkSeen};
ghost use Rattle.conversions.specs.Steps.{Held};

use arrayvec::ArrayVec;
use benc::{Sink, WriteFault, write_all};

/// How many bytes are read at once, at most.
pub(crate) const READ: usize = 40_960;

/// How many bytes go out at once, at most: what one read gives, and what is added to its frames.
pub(crate) const ROOM: usize = READ + 4_096;

/// Bytes that have not gone out yet.
pub(crate) type Outgoing = ArrayVec<u8, ROOM>;

/// Takes these bytes. What is outgoing goes out first if there is no room beside it.
pub(crate) fn put<W: Sink>(
    out: &mut W,
    outgoing: &mut Outgoing,
    bytes: &[u8],
) -> Result<(), WriteFault>
    requires { length bytes.now ≤ ROOM }
    ensures { (start : SinkSeen) (text : List ℕ)
        → Held start (W.seen out.old) outgoing.old.items text → MatchResult result
        (λ _. Held start (W.seen out.new) outgoing.new.items (text ++ bytes.now))
        (λ _. Broke start (W.seen out.new) (text ++ bytes.now)) }
{
    if outgoing.remaining_capacity() < bytes.len() {
        send(out, outgoing)?;
    }
    outgoing.try_extend_from_slice(bytes).unwrap();
    Ok(())
}

/// Writes what is outgoing.
pub(crate) fn send<W: Sink>(out: &mut W, outgoing: &mut Outgoing) -> Result<(), WriteFault>
    ensures text { (start : SinkSeen) (text : List ℕ)
        → Held start (W.seen out.old) outgoing.old.items text → MatchResult result
        (λ _. Held start (W.seen out.new) outgoing.new.items text)
        (λ _. Broke start (W.seen out.new) text) }
    ensures empty { OnOk result (outgoing.new.items ≡ []) }
{
    write_all(out, outgoing.as_slice())?;
    outgoing.clear();
    Ok(())
}
