//! Checks in parts with their bad pieces, and the join of what they report, made again if memory
//! was refused.
ghost use Rattle.std.specs.Prelude.{◌<◌};

use crate::again::{name_refused, print_bytes};
use crate::shelving::{PATH, name_untouched, print_verdicts};
use benc::memory::MemSink;
use folders::memory::{MemFile, MemShelf};
use opening::Torrent;
use part_reports::{JoinFault, join_marked_reports, kind_of, say_marked_report};
use parts::{CheckFault, say_check_part_with_bad_pieces};
use std::io;

// Room for a report.
const ROOM: usize = 512;

/// Checks that the torrent's file has this content, in two parts that tell of bad pieces, joins
/// what they report, and prints what was joined.
pub(crate) fn join_marked_again(
    rt: &HostRuntime,
    torrent: &Torrent<'_>,
    content: &[u8],
) -> io::Result<()> {
    let first = part_again(rt, torrent, content, 0)?;
    let second = part_again(rt, torrent, content, 1)?;
    join_texts(rt, torrent, &[first.written(), second.written()])
}

// What this one of two parts reports.
fn part_again(
    rt: &HostRuntime,
    torrent: &Torrent<'_>,
    content: &[u8],
    part: u64,
) -> io::Result<MemSink>
    requires { part < 2 }
{
    let files = [MemFile::new(PATH, content)];
    let mut shelf = MemShelf::new(rt.alloc(), &files);
    let mut out = MemSink::with_room(rt.alloc(), ROOM)?;
    if !checks_part(rt, torrent, &mut shelf, part, &mut out)? {
        name_untouched(rt, "say_check_part_with_bad_pieces", &shelf, &out)?;
        let _ = checks_part(rt, torrent, &mut shelf, part, &mut out)?;
    }
    print_bytes(rt, out.written())?;
    Ok(out)
}

// Makes the call, and prints the verdicts or a fault, unless memory was refused. Returns whether
// it was not.
fn checks_part(
    rt: &HostRuntime,
    torrent: &Torrent<'_>,
    shelf: &mut MemShelf<'_>,
    part: u64,
    out: &mut MemSink,
) -> io::Result<bool>
    requires { part < 2 }
{
    match say_check_part_with_bad_pieces(rt.alloc(), torrent, shelf, part, 2, out) {
        Ok(report) => print_verdicts(rt, &report)?,
        Err(CheckFault::NoMemory) => return Ok(false),
        Err(fault) => println!(rt; "{fault}")?,
    }
    Ok(true)
}

fn join_texts(rt: &HostRuntime, torrent: &Torrent<'_>, texts: &[&[u8]]) -> io::Result<()> {
    println!(rt; "{:?}", kind_of(texts))?;
    let mut out = MemSink::with_room(rt.alloc(), ROOM)?;
    if !joins(rt, torrent, texts, &mut out)? {
        name_refused(rt, "join_marked_reports")?;
        let _ = joins(rt, torrent, texts, &mut out)?;
    }
    print_bytes(rt, out.written())
}

// Joins the reports, and prints what was joined, or a fault, unless memory was refused. Returns
// whether it was not.
fn joins(
    rt: &HostRuntime,
    torrent: &Torrent<'_>,
    texts: &[&[u8]],
    out: &mut MemSink,
) -> io::Result<bool> {
    match join_marked_reports(rt.alloc(), torrent, texts) {
        Ok(joined) => {
            let _ = say_marked_report(&joined, torrent, out);
        }
        Err(JoinFault::NoMemory) => return Ok(false),
        Err(fault) => println!(rt; "{fault:?}")?,
    }
    Ok(true)
}
