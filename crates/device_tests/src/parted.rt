//! Checks in parts: what parts report, read again and joined, beside the report of a whole check.
ghost use Rattle.std.specs.Prelude.{◌<◌};

use crate::trial::sink;
use benc::memory::MemSink;
use folders::memory::{MemFile, MemShelf};
use folders::{Report, print_report};
use opening::Torrent;
use part_reports::{JoinFault, join_reports};
use parts::{Places, check, check_part, say_part};
use std::{fs, io};

/// The largest number of parts that is tried.
const MOST: u64 = 9;

/// Checks a torrent whose files are `a` and `c` in each number of parts. Prints the report of a
/// whole check, and each number of parts whose join is another.
pub(crate) fn compare(
    rt: &HostRuntime,
    torrent: &Torrent<'_>,
    files: &[MemFile<'_>],
) -> io::Result<()> {
    let whole = check(rt.alloc(), torrent, &mut MemShelf::new(rt.alloc(), files))?;
    let text = printed(rt, torrent, &whole)?;
    for count in 1..=MOST {
        join_parts(rt, torrent, files, count, &text)?;
    }
    print_text(rt, &text)
}

// Checks in this many parts, and joins what they report.
fn join_parts(
    rt: &HostRuntime,
    torrent: &Torrent<'_>,
    files: &[MemFile<'_>],
    count: u64,
    whole: &[u8],
) -> io::Result<()> {
    let reports = reports_of(rt, torrent, files, count)?;
    let texts = texts_of(rt, &reports)?;
    if !joins_to(rt, torrent, &texts, whole)? {
        println!(rt; "other in {count} parts")?;
    }
    refuse_all(rt, torrent, texts, count)
}

fn joins_to(
    rt: &HostRuntime,
    torrent: &Torrent<'_>,
    texts: &[&[u8]],
    whole: &[u8],
) -> io::Result<bool> {
    Ok(match join(rt, torrent, texts)? {
        Ok(text) => text.as_slice() == whole,
        Err(_) => false,
    })
}

// What the parts print, the last one first.
fn reports_of(
    rt: &HostRuntime,
    torrent: &Torrent<'_>,
    files: &[MemFile<'_>],
    count: u64,
) -> io::Result<Vec<MemSink>> {
    let mut reports = Vec::new(rt.alloc());
    for after in 0..count {
        reports.push(report_of(rt, torrent, files, count - 1 - after, count)?)?;
    }
    Ok(reports)
}

fn report_of(
    rt: &HostRuntime,
    torrent: &Torrent<'_>,
    files: &[MemFile<'_>],
    part: u64,
    count: u64,
) -> io::Result<MemSink>
    requires { part < count }
{
    let places = Places::of_part(torrent, part, count);
    let mut shelf = MemShelf::new(rt.alloc(), files);
    let report = check_part(rt.alloc(), torrent, &mut shelf, places)?;
    let mut out = sink(rt)?;
    let _ = say_part(&report, torrent, part, count, &mut out);
    Ok(out)
}

fn texts_of<'r>(rt: &HostRuntime, reports: &'r [MemSink]) -> io::Result<Vec<&'r [u8]>> {
    let mut texts = Vec::new(rt.alloc());
    for report in reports {
        texts.push(report.written())?;
    }
    Ok(texts)
}

// What is printed of the join of these reports, or why there is none.
fn join(
    rt: &HostRuntime,
    torrent: &Torrent<'_>,
    texts: &[&[u8]],
) -> io::Result<Result<Vec<u8>, JoinFault>> {
    match join_reports(rt.alloc(), torrent, texts) {
        Ok(report) => Ok(Ok(printed(rt, torrent, &report)?)),
        Err(fault) => Ok(Err(fault)),
    }
}

fn printed(rt: &HostRuntime, torrent: &Torrent<'_>, report: &Report) -> io::Result<Vec<u8>> {
    let mut out = sink(rt)?;
    if report.files.len() == torrent.files().len()
        && report.v1.is_some() == torrent.v1().is_some()
    {
        let _ = print_report(report, torrent, &mut out);
    }
    Ok(Vec::from_slice(rt.alloc(), out.written())?)
}

fn print_text(rt: &HostRuntime, text: &[u8]) -> io::Result<()> {
    match std::str::from_utf8(text) {
        Ok(text) => print!(rt; "{text}"),
        Err(_) => println!(rt; "not a text"),
    }
}

// Leaves a report out, takes a byte from it, or gives it twice: each is refused for what it is.
fn refuse_all(
    rt: &HostRuntime,
    torrent: &Torrent<'_>,
    mut texts: Vec<&[u8]>,
    count: u64,
) -> io::Result<()> {
    let Some(first) = texts.pop() else {
        return Ok(());
    };
    refuse(rt, torrent, &texts, JoinFault::Missing(1, count))?;
    let place = texts.len();
    texts.push(first.split_last().map_or(&[], |(_, front)| front))?;
    refuse(rt, torrent, &texts, JoinFault::NoReport(place))?;
    texts.truncate(place);
    texts.push(first)?;
    texts.push(first)?;
    refuse(rt, torrent, &texts, JoinFault::Twice(1))
}

fn refuse(
    rt: &HostRuntime,
    torrent: &Torrent<'_>,
    texts: &[&[u8]],
    fault: JoinFault,
) -> io::Result<()> {
    let answer = join(rt, torrent, texts)?;
    if answer == Err(fault) {
        return Ok(());
    }
    println!(rt; "{answer:?} in place of {fault:?}")
}

/// The contents of a file, or none if it is not there.
pub(crate) fn content_of(rt: &HostRuntime, path: &str) -> Option<Vec<u8>> {
    fs::read(rt, path).ok()
}
