//! `show`: what a torrent holds.
use crate::long::print_long;
use crate::printed::{say_refusal, say_to};
use crate::torrent_file::{open_torrent, read_torrent};
use commands::outcomes;
use lines::LineSink;
use printing::Fault;
use real_files::{StandardOutput, System};

/// Prints what the torrent with this path holds. Gives the exit status.
pub(crate) fn perform_show<'a>(
    system: &System,
    path: &'a str,
    json: bool,
    long: bool,
) -> Result<u8, Fault<'a>> {
    let bytes = read_torrent(system, path)?;
    let out = StandardOutput::buffered(system)?;
    say_to!(json, out, lines => show_torrent(system, bytes.as_slice(), long, &mut lines))
}

fn show_torrent<'a, L: LineSink>(
    system: &System,
    bytes: &[u8],
    long: bool,
    out: &mut L,
) -> Result<u8, Fault<'a>> {
    let torrent = match open_torrent(system, bytes) {
        Ok(torrent) => torrent,
        Err(refusal) => return say_refusal(system, bytes, &refusal, out),
    };
    let status = outcomes::show(&torrent, out)?;
    if long {
        print_long(&torrent, out)?;
    }
    Ok(status)
}
