//! The replay of a record, made again if memory was refused.
use crate::again::{name_refused, new_again, print_bytes, print_changed};
use crate::state::{are_alike, compare_new, print_state};
use benc::FromWrite;
use benc::memory::{MemSink, MemSource};
use holdings::Holdings;
use lines::Objects;
use opening::Torrent;
use replays::{Outcome, replay, replay_onto, replay_pieces};
use session::{NodeMap, Session};
use std::io;

// Room for a report, and for answers.
const ROOM: usize = 1 << 16;

// How many blocks may be held, and how many the longest piece has.
const HELD: usize = 64;

// The reports of a replay for which memory was refused before the first frame.
const UNREAD: [&[u8]; 2] = [
    b"fault NoMemory\n",
    b"{\"kind\":\"fault\",\"name\":\"NoMemory\"}\n",
];

/// The call that replays a record.
#[derive(Clone, Copy)]
pub(crate) enum Way {
    /// `replay`.
    Texts,
    /// `replay_onto`, with its lines as objects.
    Objects,
    /// The same of `replay_pieces`.
    Pieces,
}

impl Way {
    fn name(self) -> &'static str {
        match self {
            Way::Texts => "replay",
            Way::Objects => "replay_onto",
            Way::Pieces => "replay_pieces",
        }
    }

    fn name_of_reserve(self) -> &'static str {
        match self {
            Way::Texts => "reserve of replay",
            Way::Objects => "reserve of replay_onto",
            Way::Pieces => "reserve of replay_pieces",
        }
    }
}

// What a replay came to.
#[derive(Drop)]
struct Replayed {
    outcome: Outcome,
    report: Vec<u8>,
    answers: MemSink,
}

impl Replayed {
    // Whether memory was refused: nothing else ends these replays with a fault.
    fn lacks_memory(&self) -> bool {
        self.outcome.fault || self.outcome.no_memory
    }

    // Whether memory was refused before the first frame.
    fn is_unread(&self) -> bool {
        UNREAD.contains(&self.report.as_slice()) && self.answers.written().is_empty()
    }
}

/// Replays the record to a new session, and prints the report, the answers and the session's state.
/// If memory was refused, standard error has the report and the answers that came to.
pub(crate) fn replay_again<N: NodeMap>(
    rt: &HostRuntime,
    torrent: &Torrent<'_>,
    record: &[u8],
    way: Way,
) -> io::Result<()> {
    let mut session: Session<'_, N> = new_again(rt, torrent, false)?;
    let replayed = replay_with_room(rt, torrent, &mut session, record, way)?;
    print_bytes(rt, &replayed.report)?;
    print_bytes(rt, replayed.answers.written())?;
    print_state(rt, &session)
}

// What the replay comes to with ample memory.
fn replay_with_room<N: NodeMap>(
    rt: &HostRuntime,
    torrent: &Torrent<'_>,
    session: &mut Session<'_, N>,
    record: &[u8],
    way: Way,
) -> io::Result<Replayed> {
    let mut source = MemSource::new(record);
    let replayed = replay_once(rt, session, &mut source, way)?;
    if replayed.is_unread() {
        compare_new(rt, way.name_of_reserve(), session, torrent)?;
        return replay_once(rt, session, &mut source, way);
    }
    if replayed.lacks_memory() {
        name_replay(rt, &replayed, way)?;
        return replay_anew(rt, torrent, session, record, way);
    }
    Ok(replayed)
}

fn replay_once<N: NodeMap>(
    rt: &HostRuntime,
    session: &mut Session<'_, N>,
    source: &mut MemSource<'_>,
    way: Way,
) -> io::Result<Replayed> {
    let mut report = Vec::with_capacity(rt.alloc(), ROOM)?;
    let mut answers = MemSink::with_room(rt.alloc(), ROOM)?;
    let outcome = outcome_of(rt, session, source, &mut report, &mut answers, way)?;
    Ok(Replayed {
        outcome,
        report,
        answers,
    })
}

// Makes the call. Nothing is held before.
fn outcome_of<N: NodeMap>(
    rt: &HostRuntime,
    session: &mut Session<'_, N>,
    source: &mut MemSource<'_>,
    report: &mut Vec<u8>,
    answers: &mut MemSink,
    way: Way,
) -> io::Result<Outcome> {
    let mut out = FromWrite::new(report);
    let answers = Some(answers);
    let outcome = match way {
        Way::Texts => replay(rt.alloc(), session, source, &mut out, answers),
        Way::Objects => {
            let mut lines = Objects::new(out);
            replay_onto(rt.alloc(), session, source, &mut lines, answers, true)
        }
        Way::Pieces => {
            let held = &mut Holdings::new(rt.alloc(), HELD, HELD)?;
            let mut lines = Objects::new(out);
            replay_pieces(rt.alloc(), session, held, source, &mut lines, answers, true)
        }
    };
    Ok(outcome.unwrap_or_default())
}

fn name_replay(rt: &HostRuntime, replayed: &Replayed, way: Way) -> io::Result<()> {
    name_refused(rt, way.name())?;
    eprintln!(rt; "report {:?}", replayed.report)?;
    eprintln!(rt; "answers {:?}", replayed.answers.written())
}

// With ample memory a further replay brings the session to where a replay brings a new one: what
// that one came to.
fn replay_anew<N: NodeMap>(
    rt: &HostRuntime,
    torrent: &Torrent<'_>,
    session: &mut Session<'_, N>,
    record: &[u8],
    way: Way,
) -> io::Result<Replayed> {
    let mut other: Session<'_, N> = Session::new(rt.alloc(), torrent, false)?;
    replay_both(rt, session, &mut other, record, way)
}

fn replay_both<N: NodeMap>(
    rt: &HostRuntime,
    session: &mut Session<'_, N>,
    other: &mut Session<'_, N>,
    record: &[u8],
    way: Way,
) -> io::Result<Replayed> {
    let _ = replay_record(rt, session, record, way)?;
    let replayed = replay_record(rt, other, record, way)?;
    compare_replayed(rt, session, other, way)?;
    Ok(replayed)
}

fn compare_replayed<N: NodeMap>(
    rt: &HostRuntime,
    session: &Session<'_, N>,
    other: &Session<'_, N>,
    way: Way,
) -> io::Result<()> {
    if are_alike(session, other, &[])? {
        return Ok(());
    }
    print_changed(rt, way.name())
}

fn replay_record<N: NodeMap>(
    rt: &HostRuntime,
    session: &mut Session<'_, N>,
    record: &[u8],
    way: Way,
) -> io::Result<Replayed> {
    replay_once(rt, session, &mut MemSource::new(record), way)
}
