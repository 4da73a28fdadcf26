//! Makes calls of the libraries over devices in memory that fail at their first call, then at their
//! second, and so on, until a run meets no fault. Prints how many calls of its devices each call
//! makes, and `wrong` where a fault is answered otherwise than promised.
#![tactic(auto)]

ghost use Rattle.std.specs.Prelude.{◌<◌};

mod marked;
mod objects;
mod parted;
mod reads;
mod shelves;
mod trial;
mod world;
mod writes;

use folders::memory::MemFile;
use opening::Torrent;
use parted::{compare, content_of};
use std::{env, fs, io};
use world::World;

fn try_all(rt: &HostRuntime, world: &World<'_, '_>) -> io::Result<()> {
    writes::try_all(rt, world)?;
    reads::try_all(rt, world)?;
    shelves::try_all(rt, world)
}

fn try_torrent(
    rt: &HostRuntime,
    text: &[u8],
    record: &[u8],
    a: &[u8],
    c: &[u8],
    at_most: usize,
) -> io::Result<()>
    requires { 0 < at_most }
{
    match Torrent::open(rt.alloc(), text) {
        Ok(torrent) => {
            let world = World {
                text,
                torrent: &torrent,
                record,
                a,
                c,
                at_most,
            };
            try_all(rt, &world)
        }
        Err(refusal) => println!(rt; "refused {}", refusal.number()),
    }
}

// Checks the files that are there in parts.
fn try_parts(rt: &HostRuntime, torrent: &str, a: &str, c: &str) -> io::Result<()> {
    let (a, c) = (content_of(rt, a), content_of(rt, c));
    let mut files = Vec::new(rt.alloc());
    if let Some(a) = &a {
        files.push(MemFile::new(&["a"], a))?;
    }
    if let Some(c) = &c {
        files.push(MemFile::new(&["c"], c))?;
    }
    compare_parts(rt, torrent, &files)
}

fn compare_parts(rt: &HostRuntime, torrent: &str, files: &[MemFile<'_>]) -> io::Result<()> {
    let text = fs::read(rt, torrent)?;
    match Torrent::open(rt.alloc(), &text) {
        Ok(torrent) => compare(rt, &torrent, files),
        Err(refusal) => println!(rt; "refused {}", refusal.number()),
    }
}

// Reads the files with these paths, and tries each call.
fn try_files(
    rt: &HostRuntime,
    torrent: &str,
    record: &str,
    a: &str,
    c: &str,
    at_most: usize,
) -> io::Result<()>
    requires { 0 < at_most }
{
    let text = fs::read(rt, torrent)?;
    let record = fs::read(rt, record)?;
    let a = fs::read(rt, a)?;
    let c = fs::read(rt, c)?;
    try_torrent(rt, &text, &record, &a, &c, at_most)
}

fn arguments(rt: &HostRuntime) -> io::Result<Vec<String>> {
    let mut arguments = Vec::new(rt.alloc());
    for argument in env::args(rt)?.skip(1) {
        arguments.push(argument)?;
    }
    Ok(arguments)
}

fn main(rt: HostRuntime) -> io::Result<()> {
    let arguments = arguments(&rt)?;
    let [torrent, record, a, c, at_most] = arguments.as_slice() else {
        return eprintln!(rt;
            "usage: device_tests TORRENT RECORD A C BYTES, or device_tests parts TORRENT A C 0"
        );
    };
    if torrent.as_str() == "parts" {
        return try_parts(&rt, record.as_str(), a.as_str(), c.as_str());
    }
    let at_most = at_most.as_str().parse::<usize>().unwrap_or(1).max(1);
    try_files(
        &rt,
        torrent.as_str(),
        record.as_str(),
        a.as_str(),
        c.as_str(),
        at_most,
    )
}
