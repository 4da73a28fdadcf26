//! Replays a record beside blocks that are held, with a bound of the caller's, so that tests see
//! which pieces give way at small bounds. Prints the report, and then of each tree how many of its
//! blocks are marked.
#![tactic(auto)]

use benc::memory::{MemSink, MemSource};
use holdings::Holdings;
use lines::Nowhere;
use opening::Torrent;
use replays::replay_pieces;
use session::{Paged, Session};
use std::{env, fs, io};

// Room for a report.
const ROOM: usize = 1 << 20;

// How many bytes a block has that is not its file's last.
const BLOCK: u64 = 16384;

// Replays the record to a new session that knows the piece layers.
fn replay_record(
    rt: &HostRuntime,
    torrent: &Torrent<'_>,
    record: &[u8],
    bound: usize,
) -> io::Result<()> {
    let mut session: Session<'_, Paged> = Session::new(rt.alloc(), torrent, true)?;
    let longest = usize::try_from(torrent.piece_length() / BLOCK).unwrap_or(1);
    let mut held = Holdings::new(rt.alloc(), bound, longest)?;
    let report = report_of(rt, &mut session, &mut held, record)?;
    print!(rt; "{}", str::from_utf8(report.written()).unwrap_or("no text"))?;
    print_marked(rt, &session)
}

// The report of the replay.
fn report_of(
    rt: &HostRuntime,
    session: &mut Session<'_, Paged>,
    held: &mut Holdings,
    record: &[u8],
) -> io::Result<MemSink> {
    let mut source = MemSource::new(record);
    let mut report = MemSink::with_room(rt.alloc(), ROOM)?;
    let answers = None::<&mut Nowhere>;
    let _ = replay_pieces(
        rt.alloc(),
        session,
        held,
        &mut source,
        &mut report,
        answers,
        true,
    );
    Ok(report)
}

// Prints how many blocks of each tree are marked.
fn print_marked(rt: &HostRuntime, session: &Session<'_, Paged>) -> io::Result<()> {
    for tree in 0..session.torrent().trees().len() {
        println!(rt; "marked {tree} {}", session.marked(tree))?;
    }
    Ok(())
}

// Reads the files with these paths, and replays the second.
fn run(rt: &HostRuntime, torrent: &str, record: &str, bound: usize) -> io::Result<()> {
    let bytes = fs::read(rt, torrent)?;
    let record = fs::read(rt, record)?;
    match Torrent::open(rt.alloc(), &bytes) {
        Ok(torrent) => replay_record(rt, &torrent, &record, bound),
        Err(_) => println!(rt; "no torrent"),
    }
}

fn arguments(rt: &HostRuntime) -> io::Result<Vec<String>> {
    let mut arguments = Vec::new(rt.alloc());
    for argument in env::args(rt)?.skip(1) {
        arguments.push(argument)?;
    }
    Ok(arguments)
}

fn main(rt: HostRuntime) -> io::Result<()> {
    let arguments = arguments(&rt)?;
    let [torrent, record, bound] = arguments.as_slice() else {
        return eprintln!(rt; "usage: piece_tests TORRENT RECORD BOUND");
    };
    let bound = bound.as_str().parse().unwrap_or(0);
    run(&rt, torrent.as_str(), record.as_str(), bound)
}
