//! Tests of the clients on a torrent of one small file.
use crate::{
    Holding, draft_folder, draft_of_parts, judge_folder, keep_block, keep_piece, machines_hold_all,
    report_on, take_message, trusted_run, verdicts_on, write_torrent,
};
use benc::memory::{MemSink, MemSource};
use checker::JoinFault;
use checker::memory::{MemFile, MemShelf};
use gathering::hash_part;
use metainfo::{Draft, Torrent};
use part_texts::{ListedFile, Listing};
use session::{Paged, Session};
use std::alloc::Global;
use std::process::Abort;
use std::test::*;
use wire::Message;

/// A torrent of the one file `abc.txt`, whose content is `abc`.
pub(crate) const ABC: &[u8] = b"d4:infod9:file treed7:abc.txtd0:d6:lengthi3e11:pieces root32:\
    \xba\x78\x16\xbf\x8f\x01\xcf\xea\x41\x41\x40\xde\x5d\xae\x22\x23\
    \xb0\x03\x61\xa3\x96\x17\x7a\x9c\xb4\x10\xff\x61\xf2\x00\x15\xad\
    eee12:meta versioni2e4:name3:abc12:piece lengthi16384ee12:piece layersdee";

// What the one part of a check reports of it.
const GOOD: &[u8] = b"part 1/1 60ed8f6a2e3113b67832dc4621474822386df36dd9a0e278b3f845a546b5ebec\n\
    good abc.txt\npart yes\n";

// What a folder holds of the torrent's file, if this is its content.
fn folder_holds(alloc: Global, content: &[u8]) -> Option<Holding> {
    let torrent = Torrent::open(alloc, ABC).ok()?;
    let files = [MemFile::new(&["abc.txt"], content)];
    let mut shelf = MemShelf::new(alloc, &files);
    let (report, holding) = judge_folder(alloc, &torrent, &mut shelf).ok()?;
    (report.files.len() == 1).then_some(holding)
}

#[test]
fn a_folder(rt: HostRuntime) {
    for (content, holding) in [
        (b"abc" as &[u8], Holding::All),
        (b"abd", Holding::NotAll),
        (b"ab", Holding::NotAll),
    ] {
        assert!(rt;
            folder_holds(rt.alloc(), content) == Some(holding),
            "{content:?}"
        );
    }
}

// What is written of a draft.
fn written(alloc: Global, draft: &Draft) -> Option<MemSink> {
    let mut sink = MemSink::with_room(alloc, 512).ok()?;
    write_torrent(draft, &mut sink).ok()?;
    Some(sink)
}

// What is written of a folder with that file.
fn of_folder(alloc: Global) -> Option<MemSink> {
    let files = [MemFile::new(&["abc.txt"], b"abc")];
    let mut shelf = MemShelf::new(alloc, &files);
    let draft = draft_folder(alloc, &mut shelf, "abc", 16384, false).ok()?;
    written(alloc, &draft)
}

fn abc_is_listed(alloc: Global) -> Option<Listing> {
    let mut path = Vec::new(alloc);
    path.push(String::from_str(alloc, "abc.txt").ok()?).ok()?;
    let mut files = Vec::new(alloc);
    files.push(ListedFile { path, length: 3 }).ok()?;
    Some(Listing {
        name: String::from_str(alloc, "abc").ok()?,
        piece_length: 16384,
        hybrid: false,
        files,
    })
}

// The same of what its only part says.
fn of_parts(alloc: Global) -> Option<MemSink> {
    let files = [MemFile::new(&["abc.txt"], b"abc")];
    let mut shelf = MemShelf::new(alloc, &files);
    let text = hash_part(alloc, &mut shelf, &abc_is_listed(alloc)?, 0, 1).ok()?;
    let draft = draft_of_parts(alloc, &[&text]).ok()?;
    written(alloc, &draft)
}

#[test]
fn a_torrent_is_made(rt: HostRuntime) {
    for made in [of_folder(rt.alloc()), of_parts(rt.alloc())] {
        assert!(rt; made.is_some_and(|sink| sink.written() == ABC));
    }
}

// What reports of machines say together.
fn say_together(alloc: Global, reports: &[&[u8]]) -> Option<Result<bool, JoinFault>> {
    let torrent = Torrent::open(alloc, ABC).ok()?;
    Some(machines_hold_all(alloc, &torrent, reports))
}

#[test]
fn reports_of_machines(rt: HostRuntime) {
    let twice = Err(JoinFault::Twice(1));
    assert!(rt; say_together(rt.alloc(), &[GOOD]) == Some(Ok(true)));
    assert!(rt; say_together(rt.alloc(), &[GOOD, GOOD]) == Some(twice));
}

// What becomes of bytes as a block, as a piece, and as the block of messages.
fn taken(alloc: Global, block: &[u8]) -> Option<(Option<(usize, u64)>, bool, usize)> {
    match Torrent::open(alloc, ABC) {
        Ok(torrent) => taken_of(alloc, &torrent, block),
        Err(_) => None,
    }
}

fn taken_of(
    alloc: Global,
    torrent: &Torrent<'_>,
    block: &[u8],
) -> Option<(Option<(usize, u64)>, bool, usize)> {
    match Session::<'_, Paged>::new(alloc, torrent, true) {
        Ok(session) => taken_by(session, block),
        Err(_) => None,
    }
}

fn taken_by(
    mut session: Session<'_, Paged>,
    block: &[u8],
) -> Option<(Option<(usize, u64)>, bool, usize)> {
    let kept = keep_block(&mut session, 0, 0, block);
    let whole = keep_piece(&mut session, 0, block).is_ok();
    let message = Message::Piece {
        index: 0,
        begin: 0,
        block,
    };
    let _ = take_message(&mut session, &message);
    match trusted_run(&mut session, &[message]) {
        Ok(verdicts) => Some((kept, whole, verdicts.len())),
        Err(_) => None,
    }
}

#[test]
fn bytes_of_peers(rt: HostRuntime) {
    assert!(rt; taken(rt.alloc(), b"abc") == Some((Some((0, 0)), true, 1)));
    assert!(rt; taken(rt.alloc(), b"abd") == Some((None, false, 1)));
    let messages = [Message::KeepAlive, Message::KeepAlive];
    let verdicts = verdicts_on(rt.alloc(), ABC, &messages);
    assert!(rt; verdicts.is_ok_and(|verdicts| verdicts.len() == 2));
}

// The report on a record of one message.
fn reported(alloc: Global) -> Option<MemSink> {
    match Torrent::open(alloc, ABC) {
        Ok(torrent) => reported_of(alloc, &torrent),
        Err(_) => None,
    }
}

fn reported_of(alloc: Global, torrent: &Torrent<'_>) -> Option<MemSink> {
    match Session::<'_, Paged>::new(alloc, torrent, true) {
        Ok(session) => reported_by(alloc, session),
        Err(_) => None,
    }
}

fn reported_by(alloc: Global, mut session: Session<'_, Paged>) -> Option<MemSink> {
    let mut record = MemSource::new(b"\0\0\0\0");
    match MemSink::with_room(alloc, 64) {
        Ok(mut sink) => match report_on(alloc, &mut session, &mut record, &mut sink) {
            Ok(_) => Some(sink),
            Err(_) => None,
        },
        Err(_) => None,
    }
}

#[test]
fn a_record(rt: HostRuntime) {
    let sink = reported(rt.alloc());
    assert!(rt; sink.is_some_and(|sink| sink.written() == b"1 keep-alive\nend\n".as_slice()));
}
