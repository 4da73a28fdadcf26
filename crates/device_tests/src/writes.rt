//! Sinks that fail.
ghost use Rattle.std.specs.Prelude.{◌<◌};

use crate::trial::{broke, count, is_whole, judge, sink};
use crate::world::World;
use crate::{marked, objects};
use benc::memory::{MemSink, MemSource};
use benc::{Sink, decode, encode, write_all};
use conversions::convert;
use filetree::{Key, Refusal};
use folders::memory::MemShelf;
use folders::{print_report, root_line};
use gathering::gather;
use parts::{Places, check, check_part, say_part};
use printing::{Fault, fault_line, flush_after, write_escaped, write_line, write_path};
use replays::replay;
use seeding::seed;
use session::{Flat, Session};
use std::io;
use torrent_lines::{refusal_line, show};
use wire::{Ask, Message, write};

/// A call that writes to a sink.
#[derive(Clone, Copy)]
enum Call {
    WriteAll,
    WriteEscaped,
    WritePath,
    WriteLine,
    FlushAfter,
    Encode,
    WriteMessage,
    RootLine,
    Show,
    RefusalLine,
    FaultLine,
    PrintReport,
    SayCheck,
    SayPart,
    CheckMarked,
    SayMarked,
    Seed,
    SeedOnto,
    ReplayReport,
    ReplayAnswers,
    ReplayOnto,
    ReplayOntoAnswers,
    ReplayPiecesOnto,
    Finish,
    Convert,
}

const CALLS: [Call; 25] = [
    Call::WriteAll,
    Call::WriteEscaped,
    Call::WritePath,
    Call::WriteLine,
    Call::FlushAfter,
    Call::Encode,
    Call::WriteMessage,
    Call::RootLine,
    Call::Show,
    Call::RefusalLine,
    Call::FaultLine,
    Call::PrintReport,
    Call::SayCheck,
    Call::SayPart,
    Call::CheckMarked,
    Call::SayMarked,
    Call::Seed,
    Call::SeedOnto,
    Call::ReplayReport,
    Call::ReplayAnswers,
    Call::ReplayOnto,
    Call::ReplayOntoAnswers,
    Call::ReplayPiecesOnto,
    Call::Finish,
    Call::Convert,
];

fn name(call: Call) -> &'static str {
    match call {
        Call::WriteAll => "write_all",
        Call::WriteEscaped => "write_escaped",
        Call::WritePath => "write_path",
        Call::WriteLine => "write_line",
        Call::FlushAfter => "flush_after",
        Call::Encode => "encode",
        Call::WriteMessage => "write",
        Call::RootLine => "root_line",
        Call::Show => "show",
        Call::RefusalLine => "refusal_line",
        Call::FaultLine => "fault_line",
        Call::PrintReport => "print_report",
        Call::SayCheck => "say_check_with_bad_pieces",
        Call::SayPart => "say_part",
        Call::CheckMarked => "say_check_part_with_bad_pieces",
        Call::SayMarked => "say_marked_report",
        Call::Seed => "seed",
        Call::SeedOnto => "seed_onto",
        Call::ReplayReport => "replay",
        Call::ReplayAnswers => "replay with answers",
        Call::ReplayOnto => "replay_onto",
        Call::ReplayOntoAnswers => "replay_onto with answers",
        Call::ReplayPiecesOnto => "replay_pieces",
        Call::Finish => "finish",
        Call::Convert => "convert",
    }
}

/// Tries each call.
pub(crate) fn try_all(rt: &HostRuntime, world: &World<'_, '_>) -> io::Result<()> {
    for call in CALLS {
        try_call(rt, world, call, 1)?;
        try_call(rt, world, call, usize::MAX)?;
    }
    Ok(())
}

// Tries a call over sinks that take at most this many bytes a call.
fn try_call(rt: &HostRuntime, world: &World<'_, '_>, call: Call, at_most: usize) -> io::Result<()>
    requires { 0 < at_most }
{
    let mut whole = sink(rt)?;
    let done = make(rt, world, call, &mut whole)?;
    judge(rt, name(call), "the sink", 0, done)?;
    for at in 0..u64::MAX {
        let mut out = sink(rt)?.at_most(at_most).fails_after(at);
        let is_done = make(rt, world, call, &mut out)?;
        let is_right = if is_done {
            let has_none_empty = at_most > 1 || at == bytes_and_flushes(&out);
            has_none_empty && is_written(call, &out, whole.written())
        } else {
            broke(&out, whole.written())
        };
        judge(rt, name(call), "the sink", at, is_right)?;
        if is_done {
            return count(rt, name(call), "the sink", at);
        }
    }
    Ok(())
}

// How many calls it takes to write this many bytes one by one, with the flushes: a write of nothing
// would be one more.
fn bytes_and_flushes(out: &MemSink) -> u64 {
    (out.written().len() as u64).wrapping_add(out.flushes())
}

// Some leave the flush to their callers.
fn is_written(call: Call, out: &MemSink, text: &[u8]) -> bool {
    match call {
        Call::WriteAll | Call::WriteEscaped | Call::WritePath | Call::Encode | Call::WriteMessage =>
            out.failures() == 0 && text == out.written(),
        _ => is_whole(out, text),
    }
}

// Makes a call. Returns whether it answered no write fault.
fn make(
    rt: &HostRuntime,
    world: &World<'_, '_>,
    call: Call,
    out: &mut MemSink,
) -> io::Result<bool> {
    match call {
        Call::Encode => Ok(make_encode(rt, world, out)),
        Call::PrintReport => make_report(rt, world, out),
        Call::SayCheck => Ok(objects::checks(rt, world, out)),
        Call::SayPart => make_part(rt, world, out),
        Call::CheckMarked => Ok(marked::checks_part(rt, world, out)),
        Call::SayMarked => marked::prints_joined(rt, world, out),
        Call::Seed => make_seed(rt, world, out),
        Call::SeedOnto => make_seed_onto(rt, world, out),
        Call::ReplayReport | Call::ReplayAnswers => make_replay(rt, world, call, out),
        Call::ReplayOnto | Call::ReplayOntoAnswers | Call::ReplayPiecesOnto => {
            make_replay_onto(rt, world, call, out)
        }
        Call::Finish => Ok(make_finish(rt, world, out)),
        _ => Ok(make_line(world, call, out)),
    }
}

// A call that takes no memory.
fn make_line(world: &World<'_, '_>, call: Call, out: &mut MemSink) -> bool {
    match call {
        Call::RootLine => root_line(&mut MemSource::new(world.a), out).is_ok(),
        Call::Show => show(world.torrent, out).is_ok(),
        Call::RefusalLine => refusal_line(&Refusal::Missing(Key::Name), &[], out).is_ok(),
        Call::FaultLine => fault_line(&Fault::Truncated(ODD), out).is_ok(),
        Call::Convert => convert(&mut MemSource::new(world.record), out).is_ok(),
        _ => make_text(world, call, out),
    }
}

// A call that writes what it is given.
fn make_text(world: &World<'_, '_>, call: Call, out: &mut MemSink) -> bool {
    match call {
        Call::WriteAll => write_all(out, world.text).is_ok(),
        Call::WriteEscaped => write_escaped(out, ODD.as_bytes()).is_ok(),
        Call::WritePath => write_path(out, &["a", ODD, "b"]).is_ok(),
        Call::WriteLine => write_line(out, b"a line\n").is_ok(),
        Call::FlushAfter => flush_after(out, Ok(())).is_ok(),
        Call::WriteMessage => write(&Message::Reject(ask()), out).is_ok(),
        _ => false,
    }
}

// A name of which some bytes are not printed as they stand.
const ODD: &str = "a\\b\n";

fn ask() -> Ask {
    Ask {
        root: [7; 32],
        base: 0,
        index: 2,
        length: 2,
        proof: 1,
    }
}

fn make_encode(rt: &HostRuntime, world: &World<'_, '_>, out: &mut MemSink) -> bool {
    match decode(rt.alloc(), world.text) {
        Ok(value) => value.is_canonical() && encode(&value, out).is_ok(),
        Err(_) => false,
    }
}

fn make_report(rt: &HostRuntime, world: &World<'_, '_>, out: &mut MemSink) -> io::Result<bool> {
    let files = world.files();
    let report = check(
        rt.alloc(),
        world.torrent,
        &mut MemShelf::new(rt.alloc(), &files),
    )?;
    Ok(print_report(&report, world.torrent, out).is_ok())
}

fn make_part(rt: &HostRuntime, world: &World<'_, '_>, out: &mut MemSink) -> io::Result<bool> {
    let files = world.files();
    let mut shelf = MemShelf::new(rt.alloc(), &files);
    let places = Places::of_part(world.torrent, 0, 1);
    let report = check_part(rt.alloc(), world.torrent, &mut shelf, places)?;
    Ok(say_part(&report, world.torrent, 0, 1, out).is_ok())
}

fn make_seed(rt: &HostRuntime, world: &World<'_, '_>, out: &mut MemSink) -> io::Result<bool> {
    let mut session: Session<'_, Flat> = Session::new(rt.alloc(), world.torrent, true)?;
    Ok(seeds_files(rt, world, &mut session, out))
}

// Whether a session was seeded from the two files.
fn seeds_files(
    rt: &HostRuntime,
    world: &World<'_, '_>,
    session: &mut Session<'_, Flat>,
    out: &mut MemSink,
) -> bool {
    let files = world.files();
    let mut shelf = MemShelf::new(rt.alloc(), &files);
    seed(rt.alloc(), session, &mut shelf, out).is_ok()
}

// Replays the record to a seeded session, with the sink for the report or for the answers.
fn make_replay(
    rt: &HostRuntime,
    world: &World<'_, '_>,
    call: Call,
    out: &mut MemSink,
) -> io::Result<bool> {
    let mut session: Session<'_, Flat> = Session::new(rt.alloc(), world.torrent, true)?;
    if !seeds_files(rt, world, &mut session, &mut sink(rt)?) {
        return Ok(false);
    }
    let mut other = sink(rt)?;
    Ok(match call {
        Call::ReplayReport => replays_record(rt, world, &mut session, out, &mut other),
        _ => replays_record(rt, world, &mut session, &mut other, out),
    })
}

fn replays_record(
    rt: &HostRuntime,
    world: &World<'_, '_>,
    session: &mut Session<'_, Flat>,
    report: &mut MemSink,
    answers: &mut MemSink,
) -> bool {
    let mut source = MemSource::new(world.record);
    replay(rt.alloc(), session, &mut source, report, Some(answers)).is_ok()
}

fn make_seed_onto(rt: &HostRuntime, world: &World<'_, '_>, out: &mut MemSink) -> io::Result<bool> {
    let files = world.files();
    let mut shelf = MemShelf::new(rt.alloc(), &files);
    Ok(objects::seed(rt, world, &mut shelf, out)?.is_ok())
}

// Replays the record, with the sink for the report of objects or for the answers.
fn make_replay_onto(
    rt: &HostRuntime,
    world: &World<'_, '_>,
    call: Call,
    out: &mut MemSink,
) -> io::Result<bool> {
    let mut source = MemSource::new(world.record);
    let mut other = sink(rt)?;
    let answer = match call {
        Call::ReplayOntoAnswers => {
            objects::replay(rt, world, false, &mut source, &mut other, out)?
        }
        Call::ReplayPiecesOnto => objects::replay(rt, world, true, &mut source, out, &mut other)?,
        _ => objects::replay(rt, world, false, &mut source, out, &mut other)?,
    };
    Ok(answer.is_ok())
}

// Writes the torrent of the two files.
fn make_finish(rt: &HostRuntime, world: &World<'_, '_>, out: &mut MemSink) -> bool {
    let files = world.files();
    let mut shelf = MemShelf::new(rt.alloc(), &files);
    match gather(rt.alloc(), &mut shelf, "x", 16384, true) {
        Ok(draft) => draft.finish(out).is_ok(),
        Err(_) => false,
    }
}
