//! Checks with a report of the bad pieces, and the join of what parts report so.
use crate::trial::sink;
use crate::world::World;
use benc::memory::MemSink;
use folders::memory::MemShelf;
use part_reports::{Kind, join_marked_reports, kind_of, say_marked_report};
use parts::say_check_part_with_bad_pieces;
use std::io;

/// Checks the one part that has all places of a folder with bad pieces. Returns whether it answered
/// no write fault.
pub(crate) fn checks_part(rt: &HostRuntime, world: &World<'_, '_>, out: &mut MemSink) -> bool {
    let files = world.damaged();
    let mut shelf = MemShelf::new(rt.alloc(), &files);
    say_check_part_with_bad_pieces(rt.alloc(), world.torrent, &mut shelf, 0, 1, out).is_ok()
}

/// Joins the report of this one part, and prints what was joined. Returns whether it answered no
/// write fault.
pub(crate) fn prints_joined(
    rt: &HostRuntime,
    world: &World<'_, '_>,
    out: &mut MemSink,
) -> io::Result<bool> {
    let mut report = sink(rt)?;
    if !checks_part(rt, world, &mut report) {
        return Ok(false);
    }
    Ok(prints_join_of(rt, world, &[report.written()], out))
}

fn prints_join_of(
    rt: &HostRuntime,
    world: &World<'_, '_>,
    texts: &[&[u8]],
    out: &mut MemSink,
) -> bool {
    match join_marked_reports(rt.alloc(), world.torrent, texts) {
        Ok(joined) if kind_of(texts) == Kind::Marked => {
            say_marked_report(&joined, world.torrent, out).is_ok()
        }
        _ => false,
    }
}

/// Checks the one part that has all places of a shelf: how many files it could not read, as its
/// lines tell too.
pub(crate) fn unreadable(
    rt: &HostRuntime,
    world: &World<'_, '_>,
    shelf: &mut MemShelf<'_>,
) -> io::Result<u64> {
    let mut out = sink(rt)?;
    let checked = say_check_part_with_bad_pieces(rt.alloc(), world.torrent, shelf, 0, 1, &mut out);
    let told = unreadable_lines(out.written());
    match checked {
        Ok(report) if crate::shelves::unreadable(&report) == told => Ok(told),
        _ => Ok(u64::MAX),
    }
}

fn unreadable_lines(text: &[u8]) -> u64 {
    let mut count: u64 = 0;
    for line in text.split(|byte| *byte == b'\n') {
        if line.starts_with(b"unreadable ") {
            count = count.wrapping_add(1);
        }
    }
    count
}
