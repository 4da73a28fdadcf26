//! What is printed of a trial.
use benc::Sink;
use benc::memory::MemSink;
use std::io;

/// Room for all that a call writes.
pub(crate) const ROOM: usize = 1 << 18;

/// A new sink with room for all that a call writes.
pub(crate) fn sink(rt: &HostRuntime) -> io::Result<MemSink> {
    Ok(MemSink::with_room(rt.alloc(), ROOM)?)
}

/// Prints how many calls of a device a call makes.
pub(crate) fn count(rt: &HostRuntime, call: &str, device: &str, calls: u64) -> io::Result<()> {
    println!(rt; "{call}: {calls} of {device}")
}

/// Prints that a call or its fault was not as promised, unless it was right.
pub(crate) fn judge(
    rt: &HostRuntime,
    call: &str,
    device: &str,
    at: u64,
    right: bool,
) -> io::Result<()> {
    if right {
        return Ok(());
    }
    println!(rt; "wrong: {call}, call {at} of {device}")
}

/// Whether a sink that failed once took a prefix of the text.
pub(crate) fn broke(sink: &MemSink, text: &[u8]) -> bool {
    sink.failures() == 1 && text.starts_with(sink.written())
}

/// Whether a sink that did not fail took the text, and was flushed after it.
pub(crate) fn is_whole(sink: &MemSink, text: &[u8]) -> bool {
    sink.failures() == 0 && sink.is_flushed() && text == sink.written()
}
