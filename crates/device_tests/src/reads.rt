//! Sources that fail.
ghost use Rattle.std.specs.Prelude.{◌<◌};

use crate::objects::{self, READ_FAULT, STILL_HELD};
use crate::trial::{count, judge, sink};
use crate::world::World;
use benc::memory::{MemSink, MemSource};
use benc::{Sink, Source};
use conversions::{ConvertFault, convert};
use folders::{root_line, take_all};
use replays::replay;
use session::{Flat, Session};
use std::io;
use wire::{FrameFault, FrameReader, RecordReader};

/// A call that reads from a source.
#[derive(Clone, Copy)]
enum Call {
    RootLine,
    TakeAll,
    AdvanceFrame,
    NextFrame,
    AdvanceRecord,
    NextRecord,
    Replay,
    ReplayOnto,
    ReplayPiecesOnto,
    Convert,
}

const CALLS: [Call; 10] = [
    Call::RootLine,
    Call::TakeAll,
    Call::AdvanceFrame,
    Call::NextFrame,
    Call::AdvanceRecord,
    Call::NextRecord,
    Call::Replay,
    Call::ReplayOnto,
    Call::ReplayPiecesOnto,
    Call::Convert,
];

// What came of a call over a source that was to fail.
#[derive(Drop)]
enum Outcome {
    // No fault was met.
    Done,
    // A fault was answered, as promised.
    Faulted,
    // A fault was answered otherwise.
    Wrong,
}

fn name(call: Call) -> &'static str {
    match call {
        Call::RootLine => "root_line",
        Call::TakeAll => "take_all",
        Call::AdvanceFrame => "FrameReader::advance",
        Call::NextFrame => "FrameReader::next",
        Call::AdvanceRecord => "RecordReader::advance",
        Call::NextRecord => "RecordReader::next",
        Call::Replay => "replay",
        Call::ReplayOnto => "replay_onto",
        Call::ReplayPiecesOnto => "replay_pieces",
        Call::Convert => "convert",
    }
}

/// Tries each call.
pub(crate) fn try_all(rt: &HostRuntime, world: &World<'_, '_>) -> io::Result<()> {
    for call in CALLS {
        try_call(rt, world, call, 1)?;
        try_call(rt, world, call, usize::MAX)?;
    }
    Ok(())
}

// Tries a call over sources that give at most this many bytes a call. Each byte is read once, and
// the end.
fn try_call(rt: &HostRuntime, world: &World<'_, '_>, call: Call, at_most: usize) -> io::Result<()>
    requires { 0 < at_most }
{
    let content = match call {
        Call::RootLine | Call::TakeAll => world.c,
        _ => world.record,
    };
    for at in 0..u64::MAX {
        let mut source = MemSource::new(content).at_most(at_most).fails_after(at);
        let outcome = make(rt, world, call, &mut source)?;
        let is_right = match outcome {
            Outcome::Done => {
                let reads_once = at_most > 1 || at == (content.len() as u64).wrapping_add(1);
                source.failures() == 0 && reads_once
            }
            Outcome::Faulted => source.failures() == 1,
            Outcome::Wrong => false,
        };
        judge(rt, name(call), "the source", at, is_right)?;
        if let Outcome::Done = outcome {
            return count(rt, name(call), "the source", at);
        }
    }
    Ok(())
}

fn make(
    rt: &HostRuntime,
    world: &World<'_, '_>,
    call: Call,
    source: &mut MemSource<'_>,
) -> io::Result<Outcome> {
    match call {
        Call::RootLine => make_root_line(rt, source),
        Call::TakeAll => Ok(make_take_all(world, source)),
        Call::AdvanceFrame => read_frames(rt, source, false),
        Call::NextFrame => read_frames(rt, source, true),
        Call::AdvanceRecord => read_record(rt, source, false),
        Call::NextRecord => read_record(rt, source, true),
        Call::Replay => make_replay(rt, world, source),
        Call::ReplayOnto => make_replay_onto(rt, world, false, source),
        Call::ReplayPiecesOnto => make_replay_onto(rt, world, true, source),
        Call::Convert => make_convert(rt, world, source),
    }
}

// Nothing is written after a fault.
fn make_root_line(rt: &HostRuntime, source: &mut MemSource<'_>) -> io::Result<Outcome> {
    let mut out = sink(rt)?;
    Ok(match root_line(source, &mut out) {
        Ok(_) => Outcome::Done,
        Err(_) if out.written().is_empty() => Outcome::Faulted,
        Err(_) => Outcome::Wrong,
    })
}

// Without a fault the source is read to its end.
fn make_take_all(world: &World<'_, '_>, source: &mut MemSource<'_>) -> Outcome {
    let mut buffer = [0u8; 64];
    match take_all(source, 1048576, &mut buffer, &mut ()) {
        Ok(Some(count)) if count == world.c.len() as u64 => Outcome::Done,
        Ok(_) => Outcome::Wrong,
        Err(_) => Outcome::Faulted,
    }
}

// A reader of frames.
trait Reader {
    // Reads the next frame, and lends it or not. Returns whether there is one.
    fn read_next(&mut self, lends: bool) -> Result<bool, FrameFault>;
}

impl<R: Source> Reader for FrameReader<'_, R> {
    fn read_next(&mut self, lends: bool) -> Result<bool, FrameFault> {
        if lends {
            Ok(self.next()?.is_some())
        } else {
            self.advance()
        }
    }
}

impl<R: Source> Reader for RecordReader<'_, R> {
    fn read_next(&mut self, lends: bool) -> Result<bool, FrameFault> {
        if lends {
            Ok(self.next()?.is_some())
        } else {
            self.advance()
        }
    }
}

fn read_frames<R: Source>(rt: &HostRuntime, source: &mut R, lends: bool) -> io::Result<Outcome> {
    let mut reader = FrameReader::new(rt.alloc(), source);
    Ok(read_to_end(&mut reader, lends))
}

fn read_record<R: Source>(rt: &HostRuntime, source: &mut R, lends: bool) -> io::Result<Outcome> {
    let mut reader = RecordReader::new(rt.alloc(), source);
    Ok(read_to_end(&mut reader, lends))
}

// A fault is answered again.
fn read_to_end<R: Reader>(reader: &mut R, lends: bool) -> Outcome {
    for _ in 0..u64::MAX {
        match reader.read_next(lends) {
            Ok(true) => {}
            Ok(false) => return Outcome::Done,
            Err(FrameFault::Read) => return again(reader.read_next(lends)),
            Err(_) => return Outcome::Wrong,
        }
    }
    Outcome::Wrong
}

fn again(answer: Result<bool, FrameFault>) -> Outcome {
    match answer {
        Err(FrameFault::Read) => Outcome::Faulted,
        _ => Outcome::Wrong,
    }
}

// The report has the lines of whole frames, and the fault.
fn make_replay(
    rt: &HostRuntime,
    world: &World<'_, '_>,
    source: &mut MemSource<'_>,
) -> io::Result<Outcome> {
    let mut whole = sink(rt)?;
    report(rt, world, &mut MemSource::new(world.record), &mut whole)?;
    let mut out = sink(rt)?;
    let failed = report(rt, world, source, &mut out)?;
    Ok(match out.written().strip_suffix(b"fault Read\n") {
        Some(lines) if failed && whole.written().starts_with(lines) => Outcome::Faulted,
        None if !failed => Outcome::Done,
        _ => Outcome::Wrong,
    })
}

// Replays the source. Returns whether the report has a fault.
fn report(
    rt: &HostRuntime,
    world: &World<'_, '_>,
    source: &mut MemSource<'_>,
    out: &mut MemSink,
) -> io::Result<bool> {
    let mut session: Session<'_, Flat> = Session::new(rt.alloc(), world.torrent, true)?;
    let unwanted: Option<&mut MemSink> = None;
    match replay(rt.alloc(), &mut session, source, out, unwanted) {
        Ok(outcome) => Ok(outcome.fault),
        Err(_) => Ok(true),
    }
}

// The same of a report of objects. Before the fault stands what is held then.
fn make_replay_onto(
    rt: &HostRuntime,
    world: &World<'_, '_>,
    by_pieces: bool,
    source: &mut MemSource<'_>,
) -> io::Result<Outcome> {
    let mut whole = sink(rt)?;
    report_onto(
        rt,
        world,
        by_pieces,
        &mut MemSource::new(world.record),
        &mut whole,
    )?;
    let mut out = sink(rt)?;
    let failed = report_onto(rt, world, by_pieces, source, &mut out)?;
    Ok(match out.written().strip_suffix(READ_FAULT) {
        Some(lines) if failed && whole.written().starts_with(without_held(lines)) => {
            Outcome::Faulted
        }
        None if !failed && out.written() == whole.written() => Outcome::Done,
        _ => Outcome::Wrong,
    })
}

fn without_held(lines: &[u8]) -> &[u8] {
    lines.strip_suffix(STILL_HELD).unwrap_or(lines)
}

fn report_onto(
    rt: &HostRuntime,
    world: &World<'_, '_>,
    by_pieces: bool,
    source: &mut MemSource<'_>,
    out: &mut MemSink,
) -> io::Result<bool> {
    match objects::replay(rt, world, by_pieces, source, out, &mut sink(rt)?)? {
        Ok(outcome) => Ok(outcome.fault),
        Err(_) => Ok(true),
    }
}

// What went out is a prefix of the conversion.
fn make_convert(
    rt: &HostRuntime,
    world: &World<'_, '_>,
    source: &mut MemSource<'_>,
) -> io::Result<Outcome> {
    let mut whole = sink(rt)?;
    let mut out = sink(rt)?;
    if convert(&mut MemSource::new(world.record), &mut whole).is_err() {
        return Ok(Outcome::Wrong);
    }
    Ok(match convert(source, &mut out) {
        Ok(()) => Outcome::Done,
        Err(ConvertFault::Read) if whole.written().starts_with(out.written()) => Outcome::Faulted,
        Err(_) => Outcome::Wrong,
    })
}
