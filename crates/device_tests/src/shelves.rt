//! Shelves and files that fail.
use crate::trial::{count, judge, sink};
use crate::world::World;
use crate::{marked, objects};
use folders::memory::{MemFile, MemShelf};
use folders::{FileVerdict, Report, Shelf, ShelfFault};
use gathering::{GatherFault, gather};
use parts::{Places, check, check_part};
use seeding::seed;
use session::{Flat, Session};
use std::io;

/// A call that opens the files of a shelf.
#[derive(Clone, Copy)]
enum Call {
    Check,
    CheckPart,
    CheckMarked,
    Seed,
    SeedOnto,
    Gather,
}

const CALLS: [Call; 6] = [
    Call::Check,
    Call::CheckPart,
    Call::CheckMarked,
    Call::Seed,
    Call::SeedOnto,
    Call::Gather,
];

// Whether the call opens no file after one that failed.
fn stops(call: Call) -> bool {
    match call {
        Call::Gather => true,
        _ => false,
    }
}

fn name(call: Call) -> &'static str {
    match call {
        Call::Check => "check",
        Call::CheckPart => "check_part",
        Call::CheckMarked => "say_check_part_with_bad_pieces",
        Call::Seed => "seed",
        Call::SeedOnto => "seed_onto",
        Call::Gather => "gather",
    }
}

/// Tries each call over a shelf whose calls fail, and over files whose reads fail.
pub(crate) fn try_all(rt: &HostRuntime, world: &World<'_, '_>) -> io::Result<()> {
    for call in CALLS {
        try_shelf(rt, world, call)?;
        try_file(rt, world, call)?;
    }
    try_listings(rt, world)
}

// A shelf that has a name that is not UTF-8, or what is no file, is not gathered from.
fn try_listings(rt: &HostRuntime, world: &World<'_, '_>) -> io::Result<()> {
    let files = world.files();
    let mut odd = MemShelf::new(rt.alloc(), &files).with_odd_name();
    judge(rt, "gather", "an odd name", 0, has_odd_name(rt, &mut odd))?;
    let mut special = MemShelf::new(rt.alloc(), &files).with_specials(&[&["b"]]);
    judge(rt, "gather", "a pipe", 0, has_special(rt, &mut special))
}

fn has_odd_name(rt: &HostRuntime, shelf: &mut MemShelf<'_>) -> bool {
    let gathered = gather(rt.alloc(), shelf, "x", 16384, true);
    matches!(gathered, Err(GatherFault::List(ShelfFault::Name))) && shelf.openings() == 0
}

fn has_special(rt: &HostRuntime, shelf: &mut MemShelf<'_>) -> bool {
    match gather(rt.alloc(), shelf, "x", 16384, true) {
        Err(GatherFault::List(ShelfFault::Special(path))) => {
            path.len() == 1 && path[0].as_str() == "b" && shelf.openings() == 0
        }
        _ => false,
    }
}

fn try_shelf(rt: &HostRuntime, world: &World<'_, '_>, call: Call) -> io::Result<()> {
    let files = world.files();
    for at in 0..u64::MAX {
        let mut shelf = MemShelf::new(rt.alloc(), &files)
            .at_most(world.at_most)
            .fails_after(at);
        let lost = make(rt, world, call, &mut shelf)?;
        judge(rt, name(call), "the shelf", at, lost == shelf.failures())?;
        if lost == 0 {
            return count(rt, name(call), "the shelf", at);
        }
    }
    Ok(())
}

fn try_file(rt: &HostRuntime, world: &World<'_, '_>, call: Call) -> io::Result<()> {
    for at in 0..u64::MAX {
        let files = [
            MemFile::new(&["a"], world.a).fails_after(at),
            MemFile::new(&["c"], world.c),
        ];
        let mut shelf = MemShelf::new(rt.alloc(), &files).at_most(world.at_most);
        let lost = make(rt, world, call, &mut shelf)?;
        let opens_all = shelf.openings() == 2 || stops(call);
        let is_right = lost == shelf.failures() && opens_all;
        judge(rt, name(call), "a file", at, is_right)?;
        if lost == 0 {
            return count(rt, name(call), "a file", at);
        }
    }
    Ok(())
}

// Makes a call, and counts the files that it could not read.
fn make(
    rt: &HostRuntime,
    world: &World<'_, '_>,
    call: Call,
    shelf: &mut MemShelf<'_>,
) -> io::Result<u64> {
    match call {
        Call::Check => Ok(unreadable(&check(rt.alloc(), world.torrent, shelf)?)),
        Call::CheckPart => {
            let places = Places::of_part(world.torrent, 0, 1);
            Ok(unreadable(&check_part(rt.alloc(), world.torrent, shelf, places)?))
        }
        Call::CheckMarked => marked::unreadable(rt, world, shelf),
        Call::Seed => make_seed(rt, world, shelf),
        Call::SeedOnto => objects::unseeded(rt, world, shelf),
        Call::Gather => Ok(make_gather(rt, shelf)),
    }
}

/// How many files a report says could not be read.
pub(crate) fn unreadable(report: &Report) -> u64 {
    let mut count: u64 = 0;
    for verdict in &report.files {
        if *verdict == FileVerdict::Unreadable {
            count = count.wrapping_add(1);
        }
    }
    count
}

// The files that are seeded have all their leaves known: here each file that was read.
fn make_seed(rt: &HostRuntime, world: &World<'_, '_>, shelf: &mut MemShelf<'_>) -> io::Result<u64> {
    let mut session: Session<'_, Flat> = Session::new(rt.alloc(), world.torrent, true)?;
    let mut out = sink(rt)?;
    match seed(rt.alloc(), &mut session, shelf, &mut out) {
        Ok(()) if out.written() == b"seeded a\nseeded c\n".as_slice() => Ok(0),
        Ok(()) => Ok(1),
        Err(_) => Ok(2),
    }
}

// The first fault ends it.
fn make_gather(rt: &HostRuntime, shelf: &mut MemShelf<'_>) -> u64 {
    match gather(rt.alloc(), shelf, "x", 16384, true) {
        Ok(_) => 0,
        Err(GatherFault::Device(_) | GatherFault::List(ShelfFault::Device)) => 1,
        Err(_) => 2,
    }
}
