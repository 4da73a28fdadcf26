//! `join`: what all parts of a check say together.
use crate::join_faults::refuse_join;
use crate::printed::{refuse, say_to};
use crate::report_files::read_reports;
use crate::torrent_file::{open_torrent, read_torrent};
use actions::Join;
use commands::outcomes;
use lines::LineSink;
use opening::Torrent;
use printing::Fault;
use real_files::{StandardOutput, System};

/// Prints what all parts of a check say together. The reports are read once the torrent is taken.
/// Gives the exit status.
pub(crate) fn perform_join<'a>(system: &System, asked: &Join<'a>) -> Result<u8, Fault<'a>> {
    let bytes = read_torrent(system, asked.torrent)?;
    let paths = asked.reports.as_slice();
    let out = StandardOutput::buffered(system)?;
    match open_torrent(system, bytes.as_slice()) {
        Ok(torrent) => {
            say_to!(asked.json, out, lines => join_files(system, &torrent, paths, &mut lines))
        }
        Err(refusal) => refuse(system, bytes.as_slice(), &refusal, asked.json, out),
    }
}

fn join_files<'a, L: LineSink>(
    system: &System,
    torrent: &Torrent<'_>,
    paths: &[&'a str],
    out: &mut L,
) -> Result<u8, Fault<'a>> {
    let texts = read_reports(system, torrent, paths)?;
    let slices = texts
        .iter()
        .map(|text| text.as_slice())
        .collect::<Vec<&[u8]>>(system.alloc())?;
    match outcomes::join(system.alloc(), torrent, slices.as_slice(), out)? {
        Ok(status) => Ok(status),
        Err(fault) => refuse_join(system, fault, paths, slices.as_slice()),
    }
}
