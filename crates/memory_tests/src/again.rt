//! Calls on bytes, made again if memory was refused.
use benc::{FaultKind, decode};
use filetree::Refusal;
use opening::Torrent;
use session::{NoMemory, NodeMap, Session};
use std::io;

/// Names a call that failed.
pub(crate) fn name_refused(rt: &HostRuntime, call: &str) -> io::Result<()> {
    eprintln!(rt; "refused: {call}")
}

/// Prints that a call that failed left something behind.
pub(crate) fn print_changed(rt: &HostRuntime, call: &str) -> io::Result<()> {
    println!(rt; "changed by {call}")
}

/// Prints bytes, as numbers.
pub(crate) fn print_bytes(rt: &HostRuntime, bytes: &[u8]) -> io::Result<()> {
    println!(rt; "{bytes:?}")
}

/// Prints the number of a refusal.
pub(crate) fn print_refusal(rt: &HostRuntime, refusal: &Refusal) -> io::Result<()> {
    println!(rt; "refused {}", refusal.number())
}

/// Decodes the bytes, and prints the value.
pub(crate) fn decode_again(rt: &HostRuntime, bytes: &[u8]) -> io::Result<()> {
    let mut answer = decode(rt.alloc(), bytes);
    if let Err(fault) = answer
        && fault.kind == FaultKind::NoMemory
    {
        name_refused(rt, "decode")?;
        answer = decode(rt.alloc(), bytes);
    }
    match answer {
        Ok(value) => println!(rt; "decoded {value:?}"),
        Err(fault) => println!(rt; "{fault}"),
    }
}

/// Opens the torrent.
pub(crate) fn open_again<'a>(
    rt: &HostRuntime,
    bytes: &'a [u8],
) -> io::Result<Result<Torrent<'a>, Refusal>> {
    let answer = Torrent::open(rt.alloc(), bytes);
    if let Err(Refusal::NoMemory) = answer {
        name_refused(rt, "open")?;
        return Ok(Torrent::open(rt.alloc(), bytes));
    }
    Ok(answer)
}

/// A new session of the torrent.
pub(crate) fn new_again<'t, N: NodeMap>(
    rt: &HostRuntime,
    torrent: &'t Torrent<'t>,
    with_layers: bool,
) -> io::Result<Session<'t, N>> {
    match Session::new(rt.alloc(), torrent, with_layers) {
        Ok(session) => Ok(session),
        Err(NoMemory) => {
            name_refused(rt, "new")?;
            Ok(Session::new(rt.alloc(), torrent, with_layers)?)
        }
    }
}
