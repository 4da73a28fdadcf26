//! Makes calls of the libraries, and makes a call again if memory was refused for it. Prints what
//! the calls answer, and `changed` if one that failed left something behind; standard error names
//! each call that failed. So if memory for one growth is refused, it prints what it prints with
//! ample memory. Tests refuse each growth in turn.
#![tactic(auto)]

mod again;
mod alone;
mod drafting;
mod given;
mod keeping;
mod marking;
mod messages;
mod parting;
mod replaying;
mod runs;
mod shelving;
mod state;
mod wanting;
mod whole_pieces;

use again::{decode_again, open_again, print_refusal};
use alone::{cuts_again, layer_again, span_again};
use drafting::draft_again;
use marking::join_marked_again;
use messages::take_record;
use node_maps::{Flat, Paged};
use opening::Torrent;
use parting::join_again;
use replaying::{Way, replay_again};
use session::NodeMap;
use shelving::{check_again, gather_again, report_again, seed_again};
use std::{env, fs, io};
use whole_pieces::take_pieces;

// Makes the call. To a call that takes no messages the record is the content of a file, or what it
// takes in place of one.
fn make_call<N: NodeMap>(
    rt: &HostRuntime,
    torrent: &Torrent<'_>,
    record: &[u8],
    call: &str,
) -> io::Result<()> {
    match call {
        "draft" => draft_again(rt, torrent, false),
        "hybrid draft" => draft_again(rt, torrent, true),
        "gather" => gather_again(rt, record),
        "check" => check_again(rt, torrent, record),
        "say_check" | "say_check_with_bad_pieces" | "objects" => {
            report_again(rt, torrent, record, call)
        }
        "parts" => join_again(rt, torrent, record),
        "marked parts" => join_marked_again(rt, torrent, record),
        "seed" | "seed_onto" => seed_again::<N>(rt, torrent, record, call),
        "replay" => replay_again::<N>(rt, torrent, record, Way::Texts),
        "replay_onto" => replay_again::<N>(rt, torrent, record, Way::Objects),
        "replay_pieces" => replay_again::<N>(rt, torrent, record, Way::Pieces),
        "pieces" => take_pieces::<N>(rt, torrent, record),
        "span" => span_again(rt, record),
        "layer" => layer_again(rt, record),
        "cuts" => cuts_again(rt, record),
        _ => take_record::<N>(rt, torrent, record, call),
    }
}

// Makes the call over the map of this name.
fn make_call_over(
    rt: &HostRuntime,
    torrent: &Torrent<'_>,
    record: &[u8],
    map: &str,
    call: &str,
) -> io::Result<()> {
    match map {
        "flat" => make_call::<Flat>(rt, torrent, record, call),
        _ => make_call::<Paged>(rt, torrent, record, call),
    }
}

// Reads the files with these paths, and makes the call.
fn run(rt: &HostRuntime, torrent: &str, record: &str, map: &str, call: &str) -> io::Result<()> {
    let bytes = fs::read(rt, torrent)?;
    let record = fs::read(rt, record)?;
    run_bytes(rt, &bytes, &record, map, call)
}

fn run_bytes(
    rt: &HostRuntime,
    bytes: &[u8],
    record: &[u8],
    map: &str,
    call: &str,
) -> io::Result<()> {
    decode_again(rt, bytes)?;
    match open_again(rt, bytes)? {
        Ok(torrent) => make_call_over(rt, &torrent, record, map, call),
        Err(refusal) => print_refusal(rt, &refusal),
    }
}

fn arguments(rt: &HostRuntime) -> io::Result<Vec<String>> {
    let mut arguments = Vec::new(rt.alloc());
    for argument in env::args(rt)?.skip(1) {
        arguments.push(argument)?;
    }
    Ok(arguments)
}

fn main(rt: HostRuntime) -> io::Result<()> {
    let arguments = arguments(&rt)?;
    let [torrent, record, map, call] = arguments.as_slice() else {
        return eprintln!(rt; "usage: memory_tests TORRENT RECORD flat|paged CALL");
    };
    run(
        &rt,
        torrent.as_str(),
        record.as_str(),
        map.as_str(),
        call.as_str(),
    )
}
