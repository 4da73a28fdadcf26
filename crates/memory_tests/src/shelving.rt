//! Calls on folders, made again if memory was refused.
use crate::again::{name_refused, new_again, print_bytes, print_changed};
use crate::drafting::print_draft;
use crate::state::{compare_new, print_state};
use benc::memory::MemSink;
use drafts::Draft;
use folders::memory::{MemFile, MemShelf};
use folders::{Lines, Report, ShelfFault, Unhurried};
use gathering::{GatherFault, gather};
use lines::Objects;
use opening::Torrent;
use parts::{CheckFault, check, say_check, say_check_with_bad_pieces};
use seeding::{SeedFault, seed, seed_onto};
use session::{NodeMap, Session};
use std::io;

/// The path that the torrents of the tests have for their file.
pub(crate) const PATH: &[&str] = &["five"];

/// Gathers a file of this content and an empty one, and prints the torrent.
pub(crate) fn gather_again(rt: &HostRuntime, content: &[u8]) -> io::Result<()> {
    let answer = gather_files(rt, content);
    if let Err(GatherFault::NoMemory | GatherFault::List(ShelfFault::NoMemory)) = answer {
        name_refused(rt, "gather")?;
        return print_gathered(rt, gather_files(rt, content));
    }
    print_gathered(rt, answer)
}

fn gather_files(rt: &HostRuntime, content: &[u8]) -> Result<Draft, GatherFault> {
    let files = [
        MemFile::new(&["a", "b"], content),
        MemFile::new(&["c"], b""),
    ];
    let mut shelf = MemShelf::new(rt.alloc(), &files);
    gather(rt.alloc(), &mut shelf, "x", 16384, true)
}

fn print_gathered(rt: &HostRuntime, answer: Result<Draft, GatherFault>) -> io::Result<()> {
    match answer {
        Ok(draft) => print_draft(rt, &draft),
        Err(fault) => println!(rt; "{fault}"),
    }
}

/// Checks that the torrent's file has this content, and prints the verdicts.
pub(crate) fn check_again(
    rt: &HostRuntime,
    torrent: &Torrent<'_>,
    content: &[u8],
) -> io::Result<()> {
    let files = [MemFile::new(PATH, content)];
    let mut shelf = MemShelf::new(rt.alloc(), &files);
    check_shelf(rt, torrent, &mut shelf)
}

fn check_shelf(
    rt: &HostRuntime,
    torrent: &Torrent<'_>,
    shelf: &mut MemShelf<'_>,
) -> io::Result<()> {
    if let Ok(report) = check(rt.alloc(), torrent, shelf) {
        return print_verdicts(rt, &report);
    }
    name_unopened(rt, "check", shelf)?;
    print_verdicts(rt, &check(rt.alloc(), torrent, shelf)?)
}

// The lines go out as objects, and are not printed.
fn checks_as_objects(
    rt: &HostRuntime,
    torrent: &Torrent<'_>,
    shelf: &mut MemShelf<'_>,
) -> io::Result<bool> {
    let mut lines = Objects::new(MemSink::with_room(rt.alloc(), 256)?);
    match say_check(
        rt.alloc(),
        torrent,
        shelf,
        Lines::All,
        &mut Unhurried,
        &mut lines,
    ) {
        Ok(report) => print_verdicts(rt, &report)?,
        Err(CheckFault::NoMemory) => return Ok(false),
        Err(fault) => println!(rt; "{fault}")?,
    }
    Ok(true)
}

/// Names a call that failed, and prints `changed` if it opened a file.
pub(crate) fn name_unopened(rt: &HostRuntime, call: &str, shelf: &MemShelf<'_>) -> io::Result<()> {
    name_refused(rt, call)?;
    if shelf.openings() != 0 {
        print_changed(rt, call)?;
    }
    Ok(())
}

/// Prints the verdicts on the files.
pub(crate) fn print_verdicts(rt: &HostRuntime, report: &Report) -> io::Result<()> {
    println!(rt; "{:?}", report.files.as_slice())
}

/// Checks the same by `say_check`, or by the call of this name, with a report as it goes, and
/// prints the report.
pub(crate) fn report_again(
    rt: &HostRuntime,
    torrent: &Torrent<'_>,
    content: &[u8],
    call: &str,
) -> io::Result<()> {
    let files = [MemFile::new(PATH, content)];
    let mut shelf = MemShelf::new(rt.alloc(), &files);
    let mut out = MemSink::with_room(rt.alloc(), 256)?;
    report_to(rt, torrent, &mut shelf, &mut out, call)
}

fn report_to(
    rt: &HostRuntime,
    torrent: &Torrent<'_>,
    shelf: &mut MemShelf<'_>,
    out: &mut MemSink,
    call: &str,
) -> io::Result<()> {
    if !checks(rt, torrent, shelf, out, call)? {
        name_untouched(rt, call, shelf, out)?;
        let _ = checks(rt, torrent, shelf, out, call)?;
    }
    print_bytes(rt, out.written())
}

// Makes the call, and prints the verdicts or a fault, unless memory was refused. Returns whether
// it was not.
fn checks(
    rt: &HostRuntime,
    torrent: &Torrent<'_>,
    shelf: &mut MemShelf<'_>,
    out: &mut MemSink,
    call: &str,
) -> io::Result<bool> {
    match call {
        "say_check_with_bad_pieces" => checks_with_bad_pieces(rt, torrent, shelf, out),
        "objects" => checks_as_objects(rt, torrent, shelf),
        _ => checks_as_text(rt, torrent, shelf, out),
    }
}

fn checks_as_text(
    rt: &HostRuntime,
    torrent: &Torrent<'_>,
    shelf: &mut MemShelf<'_>,
    out: &mut MemSink,
) -> io::Result<bool> {
    match say_check(rt.alloc(), torrent, shelf, Lines::All, &mut Unhurried, out) {
        Ok(report) => print_verdicts(rt, &report)?,
        Err(CheckFault::NoMemory) => return Ok(false),
        Err(fault) => println!(rt; "{fault}")?,
    }
    Ok(true)
}

// The bad pieces of the file stand behind its line.
fn checks_with_bad_pieces(
    rt: &HostRuntime,
    torrent: &Torrent<'_>,
    shelf: &mut MemShelf<'_>,
    out: &mut MemSink,
) -> io::Result<bool> {
    match say_check_with_bad_pieces(rt.alloc(), torrent, shelf, Lines::All, out) {
        Ok(report) => print_verdicts(rt, &report)?,
        Err(CheckFault::NoMemory) => return Ok(false),
        Err(fault) => println!(rt; "{fault}")?,
    }
    Ok(true)
}

/// Names a call that failed, and prints `changed` if it opened a file, or used the sink.
pub(crate) fn name_untouched(
    rt: &HostRuntime,
    call: &str,
    shelf: &MemShelf<'_>,
    out: &MemSink,
) -> io::Result<()> {
    name_refused(rt, call)?;
    if shelf.openings() != 0 || out.flushes() != 0 || !out.written().is_empty() {
        print_changed(rt, call)?;
    }
    Ok(())
}

/// Seeds a session from a file of this content by the call of this name, and prints its state.
pub(crate) fn seed_again<N: NodeMap>(
    rt: &HostRuntime,
    torrent: &Torrent<'_>,
    content: &[u8],
    call: &str,
) -> io::Result<()> {
    let mut session: Session<'_, N> = new_again(rt, torrent, false)?;
    seed_session(rt, &mut session, torrent, content, call)
}

fn seed_session<N: NodeMap>(
    rt: &HostRuntime,
    session: &mut Session<'_, N>,
    torrent: &Torrent<'_>,
    content: &[u8],
    call: &str,
) -> io::Result<()> {
    if let Err(SeedFault::NoMemory) = seed_file(rt, session, content, call)? {
        compare_new(rt, call, session, torrent)?;
        seed_with_room(rt, session, content, call)?;
    }
    print_state(rt, session)
}

fn seed_with_room<N: NodeMap>(
    rt: &HostRuntime,
    session: &mut Session<'_, N>,
    content: &[u8],
    call: &str,
) -> io::Result<()> {
    match seed_file(rt, session, content, call)? {
        Ok(()) => Ok(()),
        Err(fault) => println!(rt; "{fault}"),
    }
}

fn seed_file<N: NodeMap>(
    rt: &HostRuntime,
    session: &mut Session<'_, N>,
    content: &[u8],
    call: &str,
) -> io::Result<Result<(), SeedFault>> {
    let files = [MemFile::new(PATH, content)];
    let mut shelf = MemShelf::new(rt.alloc(), &files);
    let mut report = MemSink::with_room(rt.alloc(), 64)?;
    Ok(match call {
        "seed_onto" => {
            let mut lines = Objects::new(report);
            seed_onto(rt.alloc(), session, &mut shelf, &mut Unhurried, &mut lines)
        }
        _ => seed(rt.alloc(), session, &mut shelf, &mut report),
    })
}
