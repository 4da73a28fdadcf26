//! Tests of what machines do that each have a part.
use crate::tests::ABC;
use crate::{joined_report, report_part, text_of_part, torrent_of_parts};
use actions::NumberedPart;
use benc::memory::MemSink;
use checker::memory::{MemFile, MemShelf};
use metainfo::Torrent;
use part_texts::{ListedFile, Listing};
use std::alloc::Global;
use std::process::Abort;
use std::test::*;

// The only part of what is done in parts.
const WHOLE: NumberedPart = NumberedPart {
    number: 1,
    count: 1,
};

// The status of a check of the only part of a folder whose file has this content, and its report.
fn reported(alloc: Global, content: &[u8]) -> Option<(u8, MemSink)> {
    let torrent = Torrent::open(alloc, ABC).ok()?;
    let files = [MemFile::new(&["abc.txt"], content)];
    let mut out = MemSink::with_room(alloc, 1000).ok()?;
    let mut shelf = MemShelf::new(alloc, &files);
    let status = report_part(alloc, &torrent, &mut shelf, WHOLE, &mut out).ok()?;
    Some((status, out))
}

// Whether what it reports is a yes, once it is joined.
fn joined(alloc: Global, report: &[u8]) -> Option<bool> {
    let torrent = Torrent::open(alloc, ABC).ok()?;
    let report = joined_report(alloc, &torrent, &[report]).ok()?;
    Some(report.yes())
}

#[test]
fn a_report_of_a_machine(rt: HostRuntime) {
    for (content, status) in [(b"abc" as &[u8], 0), (b"abd", 1)] {
        let found = match reported(rt.alloc(), content) {
            Some((found, out)) => found == status
                && joined(rt.alloc(), out.written()) == Some(status == 0),
            None => false,
        };
        assert!(rt; found, "{content:?}");
    }
}

// The listing of a folder with the torrent's file.
fn listing(alloc: Global) -> Option<Listing> {
    let mut path = Vec::new(alloc);
    path.push(String::from_str(alloc, "abc.txt").ok()?).ok()?;
    let mut files = Vec::new(alloc);
    files.push(ListedFile { path, length: 3 }).ok()?;
    Some(Listing {
        name: String::from_str(alloc, "abc").ok()?,
        piece_length: 16384,
        hybrid: false,
        files,
    })
}

// What is written of the torrent that is made in one part of this content.
fn made(alloc: Global, content: &[u8]) -> Option<MemSink> {
    let listing = listing(alloc)?;
    let files = [MemFile::new(&["abc.txt"], content)];
    let mut out = MemSink::with_room(alloc, 1000).ok()?;
    let mut shelf = MemShelf::new(alloc, &files);
    let Ok(text) = text_of_part(alloc, &listing, &mut shelf, WHOLE, &mut out).ok()? else {
        return None;
    };
    let draft = torrent_of_parts(alloc, &[text.as_slice()]).ok()?;
    draft.finish(&mut out).ok()?;
    Some(out)
}

#[test]
fn a_torrent_of_parts(rt: HostRuntime) {
    let made = match made(rt.alloc(), b"abc") {
        Some(out) => out.written() == ABC,
        None => false,
    };
    assert!(rt; made);
}
