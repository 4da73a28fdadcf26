//! Calls whose lines go out as JSON objects.
use crate::trial::sink;
use crate::world::World;
use benc::memory::{MemSink, MemSource};
use benc::{DeviceFault, Sink, WriteFault};
use folders::memory::MemShelf;
use folders::{Lines, Unhurried};
use holdings::Holdings;
use lines::Objects;
use parts::say_check_with_bad_pieces;
use replays::{Outcome, replay_onto, replay_pieces};
use seeding::{SeedFault, seed_onto};
use session::{Flat, Session};
use std::io;

// How many blocks may be held, and how many the longest piece has.
const HELD: usize = 4;

/// The text of a fault of the record's source.
pub(crate) const READ_FAULT: &[u8] = b"{\"kind\":\"fault\",\"name\":\"Read\"}\n";

/// The text of one block that is held at the end.
pub(crate) const STILL_HELD: &[u8] = b"{\"count\":1,\"kind\":\"held\"}\n";

const SEEDED: &[u8] =
    b"{\"kind\":\"seeded\",\"path\":\"a\"}\n{\"kind\":\"seeded\",\"path\":\"c\"}\n";

// A sink that is lent, so that what went out is seen once the lines are written.
#[derive(Drop)]
struct Lent<'s, W: Sink> {
    sink: &'s mut W,
}

impl<'s, W: Sink> Sink for Lent<'s, W> {
    ghost seen = { λ s. W.seen s.sink.now };

    fn write(&mut self, buf: &[u8]) -> Result<usize, DeviceFault> {
        self.sink.write(buf)
    }

    fn flush(&mut self) -> Result<(), DeviceFault> {
        self.sink.flush()
    }

    fn failures(&self) -> u64 {
        self.sink.failures()
    }
}

/// Seeds a new session from the shelf, and writes its lines to the sink.
pub(crate) fn seed(
    rt: &HostRuntime,
    world: &World<'_, '_>,
    shelf: &mut MemShelf<'_>,
    out: &mut MemSink,
) -> io::Result<Result<(), SeedFault>> {
    let mut session: Session<'_, Flat> = Session::new(rt.alloc(), world.torrent, true)?;
    let mut lines = Objects::new(Lent { sink: out });
    Ok(seed_onto(rt.alloc(), &mut session, shelf, &mut Unhurried, &mut lines))
}

/// Seeds a new session from the shelf: how many faults it tells of by files that are not seeded.
pub(crate) fn unseeded(
    rt: &HostRuntime,
    world: &World<'_, '_>,
    shelf: &mut MemShelf<'_>,
) -> io::Result<u64> {
    let mut out = sink(rt)?;
    match seed(rt, world, shelf, &mut out)? {
        Ok(()) if out.written() == SEEDED => Ok(0),
        Ok(()) => Ok(1),
        Err(_) => Ok(2),
    }
}

/// Checks the two files, and writes the lines to the sink: whether it answered a report.
pub(crate) fn checks(rt: &HostRuntime, world: &World<'_, '_>, out: &mut MemSink) -> bool {
    let files = world.files();
    let mut shelf = MemShelf::new(rt.alloc(), &files);
    let mut lines = Objects::new(Lent { sink: out });
    let alloc = rt.alloc();
    say_check_with_bad_pieces(alloc, world.torrent, &mut shelf, Lines::All, &mut lines).is_ok()
}

/// Replays the record to a new session, and writes its lines to the sink. By pieces the session
/// knows the roots alone, and blocks are held beside it.
pub(crate) fn replay(
    rt: &HostRuntime,
    world: &World<'_, '_>,
    by_pieces: bool,
    source: &mut MemSource<'_>,
    report: &mut MemSink,
    answers: &mut MemSink,
) -> io::Result<Result<Outcome, WriteFault>> {
    let mut session: Session<'_, Flat> = Session::new(rt.alloc(), world.torrent, !by_pieces)?;
    let mut lines = Objects::new(Lent { sink: report });
    let answers = Some(answers);
    if !by_pieces {
        return Ok(replay_onto(rt.alloc(), &mut session, source, &mut lines, answers, true));
    }
    let mut held = Holdings::new(rt.alloc(), HELD, HELD)?;
    Ok(replay_pieces(
        rt.alloc(),
        &mut session,
        &mut held,
        source,
        &mut lines,
        answers,
        true,
    ))
}
