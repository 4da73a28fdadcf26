//! Checks in parts, and the join of what they report, made again if memory was refused.
ghost use Rattle.std.specs.Prelude.{◌<◌};

use crate::again::name_refused;
use crate::shelving::{PATH, name_unopened, print_verdicts};
use benc::memory::MemSink;
use folders::memory::{MemFile, MemShelf};
use folders::{NoMemory, Report};
use opening::Torrent;
use part_reports::{JoinFault, join_reports};
use parts::{Places, check_part, say_part};
use std::io;

/// Checks that the torrent's file has this content, in two parts, joins what they report, and
/// prints the verdicts.
pub(crate) fn join_again(
    rt: &HostRuntime,
    torrent: &Torrent<'_>,
    content: &[u8],
) -> io::Result<()> {
    let first = part_again(rt, torrent, content, 0)?;
    let second = part_again(rt, torrent, content, 1)?;
    join_texts(rt, torrent, &[first.written(), second.written()])
}

fn join_texts(rt: &HostRuntime, torrent: &Torrent<'_>, texts: &[&[u8]]) -> io::Result<()> {
    let answer = join_reports(rt.alloc(), torrent, texts);
    if let Err(JoinFault::NoMemory) = answer {
        name_refused(rt, "join_reports")?;
        return print_joined(rt, join_reports(rt.alloc(), torrent, texts));
    }
    print_joined(rt, answer)
}

fn print_joined(rt: &HostRuntime, answer: Result<Report, JoinFault>) -> io::Result<()> {
    match answer {
        Ok(report) => print_verdicts(rt, &report),
        Err(fault) => println!(rt; "{fault:?}"),
    }
}

// What this one of two parts reports.
fn part_again(
    rt: &HostRuntime,
    torrent: &Torrent<'_>,
    content: &[u8],
    part: u64,
) -> io::Result<MemSink>
    requires { part < 2 }
{
    let places = Places::of_part(torrent, part, 2);
    let report = check_again(rt, torrent, content, places)?;
    let mut out = MemSink::with_room(rt.alloc(), 256)?;
    if report.files.len() == torrent.files().len()
        && report.v1.is_some() == torrent.v1().is_some()
    {
        let _ = say_part(&report, torrent, part, 2, &mut out);
    }
    Ok(out)
}

fn check_again(
    rt: &HostRuntime,
    torrent: &Torrent<'_>,
    content: &[u8],
    places: Places,
) -> io::Result<Report> {
    let files = [MemFile::new(PATH, content)];
    let mut shelf = MemShelf::new(rt.alloc(), &files);
    match check_part(rt.alloc(), torrent, &mut shelf, places) {
        Ok(report) => Ok(report),
        Err(NoMemory) => {
            name_unopened(rt, "check_part", &shelf)?;
            Ok(check_part(rt.alloc(), torrent, &mut shelf, places)?)
        }
    }
}
