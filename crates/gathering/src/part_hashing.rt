//! The hashing of one part.
ghost use Rattle.std.specs.Prelude.{◌≡◌, ◌^◌, ◌<◌, ◌↔◌, IfOk, IsTrue, length, map};
ghost use Rattle.gathering.specs.PartSteps.{FindsShare, PutsRows, PutsShare, found_by};
ghost use Rattle.gathering.specs.PartVisits.{HashesPart, IsTouched};
ghost use Rattle.part_texts.specs.Divisions.{total_of};
ghost use Rattle.part_texts.specs.Listings.{inventory, listed};
ghost use Rattle.part_texts.specs.Readings.{CanBeListed};
ghost use Rattle.part_texts.specs.Texts.{listing_text};

use crate::hashing::FileHashes;
use crate::job::put_parts;
use crate::kind::TorrentKind;
use crate::part_digests::put_digests;
use crate::part_fault::PartFault;
use crate::part_row::{Hashed, RowReader};
use benc::DeviceFault;
use folders::{ReadFault, SeekShelf, visit_at};
use part_texts::{Division, ListedFile, Listing, Span, hashed, write_head};
use std::alloc::Global;

/// Hashes the pieces that this part, counted from 0, of this many has of the listed files, and
/// gives the part's text (BEP 52, "piece layers", "pieces root"; for a hybrid BEP 3, "pieces", and
/// BEP 47 too).
///
/// Each file of which the part has a byte, or the end, is opened once, in the order of the listing,
/// at the first of its pieces, and handed back. No byte behind the last of these is read, but one
/// of a file that is longer than it is listed, if the part has its end. No other file is opened.
/// What is on the shelf stays. Condition: there is such a part.
///
/// # Errors
///
/// `PieceLength`: the piece length is none, and nothing was opened. `Device` and `Changed` name the
/// first file that was not read, and those before it were, without a fault: `Device` if it could
/// not be opened or not be read, which the shelf counts once; `Changed` if nothing is there, or it
/// ended before the part's last byte of it, or has one more where it was to end. `NoMemory` comes
/// only if memory was refused: before anything was opened, or at a file, before it was opened or
/// once it was read.
pub fn hash_part<S: SeekShelf>(
    alloc: Global,
    shelf: &mut S,
    listing: &Listing,
    part: u64,
    parts: u64,
) -> Result<Vec<u8>, PartFault>
    requires { part < parts }
    ensures hashes { HashesPart S.Shelf S.opens_at S.File.seen (inventory listing.now) part parts
        shelf.old shelf.new result }
    ensures listed { IfOk result (λ _. CanBeListed (inventory listing.now)) }
    ensures short { IfOk result (λ _. length (listing_text (inventory listing.now)) < 2 ^ 64) }
    ensures stays { S.Shelf.contents shelf.new ≡ S.Shelf.contents shelf.old }
{
    let Some(kind) = TorrentKind::new(listing.piece_length, listing.hybrid) else {
        return Err(PartFault::PieceLength);
    };
    let mut text = match write_head(alloc, listing, part, parts) {
        Ok(text) => text,
        Err(_) => return Err(PartFault::NoMemory),
    };
    let which = PartNumber { part, parts };
    match put_rows(alloc, shelf, &kind, &listing.files, which, &mut text) {
        Ok(()) => Ok(text),
        Err(fault) => Err(fault),
    }
}

// The number of a part, counted from 0, and how many there are.
#[derive(Clone, Copy)]
struct PartNumber {
    part: u64,
    parts: u64,
}

// A listed file, its place in the listing, and what a part has of it.
#[derive(Clone, Copy)]
struct FileShare<'f> {
    place: usize,
    file: &'f ListedFile,
    span: Span,
}

// Puts behind a text what is found of the rows of all files.
fn put_rows<S: SeekShelf>(
    alloc: Global,
    shelf: &mut S,
    kind: &TorrentKind,
    files: &[ListedFile],
    which: PartNumber,
    text: &mut Vec<u8>,
) -> Result<(), PartFault>
    requires { which.part < which.parts }
    ensures rows { PutsRows S.Shelf S.opens_at S.File.seen kind.now.piece_length kind.now.hybrid
        (total_of (map listed files.now)) which.parts which.part (map listed files.now) shelf.old
        shelf.new text.old.items text.new.items result }
    ensures stays { S.Shelf.contents shelf.new ≡ S.Shelf.contents shelf.old }
{
    let division = Division::of(kind.piece_length, files, which.parts);
    let mut buffer = kind.buffer(alloc);
    let mut before: u64 = 0;
    'files: for place in 0..files.len() {
        let file = &files[place];
        let span = division.span(which.part, before, file.length);
        let share = FileShare { place, file, span };
        match put_row(alloc, shelf, kind, share, text, buffer.as_mut_slice()) {
            Ok(()) => before = before.saturating_add(hashed(file.length)),
            Err(fault) => return Err(fault),
        }
    }
    Ok(())
}

// Puts behind a text what is found of some pieces of a file, if there are any, and sees whether the
// file ends where it is to.
fn put_row<S: SeekShelf>(
    alloc: Global,
    shelf: &mut S,
    kind: &TorrentKind,
    share: FileShare<'_>,
    text: &mut Vec<u8>,
    buffer: &mut [u8],
) -> Result<(), PartFault>
    requires { 0 < length buffer.old }
    ensures row { PutsShare S.Shelf S.opens_at S.File.seen kind.now.piece_length kind.now.hybrid
        share.entry.place shelf.old
        (record { file = listed share.entry.file.now; span = share.entry.span }) shelf.new
        text.old.items text.new.items result }
    ensures stays { S.Shelf.contents shelf.new ≡ S.Shelf.contents shelf.old }
    ensures buffer { length buffer.new ≡ length buffer.old }
{
    let touched = is_touched(kind, share.file, share.span);
    if !touched {
        return Ok(());
    }
    let found = match visit_row(alloc, shelf, kind, share, buffer) {
        Ok(found) => found,
        Err(fault) => return Err(fault),
    };
    if found.length == 0 {
        return Ok(());
    }
    match put_digests(text, kind, share.file.length, &found) {
        Ok(()) => Ok(()),
        Err(_) => Err(PartFault::NoMemory),
    }
}

// Whether a part that has these pieces of a file has a byte of it, or its end.
fn is_touched(kind: &TorrentKind, file: &ListedFile, span: Span) -> bool
    ensures { IsTrue result ↔ IsTouched kind.now.piece_length
        (record { file = listed file.now; span = span }) }
{
    span.ends || span.bytes(kind.piece_length, file.length) > 0
}

// Opens a file at the first of some pieces, hashes them, and hands it back.
fn visit_row<S: SeekShelf>(
    alloc: Global,
    shelf: &mut S,
    kind: &TorrentKind,
    share: FileShare<'_>,
    buffer: &mut [u8],
) -> Result<FileHashes, PartFault>
    requires some { 0 < length buffer.old }
    requires touched { IsTouched kind.now.piece_length
        (record { file = listed share.file.now; span = share.span }) }
    ensures found { FindsShare S.Shelf S.opens_at S.File.seen kind.now.piece_length kind.now.hybrid
        share.entry.place shelf.old
        (record { file = listed share.entry.file.now; span = share.entry.span }) shelf.new result }
    ensures stays { S.Shelf.contents shelf.new ≡ S.Shelf.contents shelf.old }
    ensures buffer { length buffer.new ≡ length buffer.old }
{
    let FileShare { place, file, span } = share;
    let Ok(mut path) = Vec::with_capacity(alloc, file.path.len()) else {
        return Err(PartFault::NoMemory);
    };
    put_parts(&file.path, &mut path);
    let offset = span.offset(kind.piece_length);
    let mut reader = RowReader {
        alloc,
        kind,
        size: span.bytes(kind.piece_length, file.length),
        ends: span.ends,
    };
    found_of(place, visit_at(shelf, &path, offset, &mut reader, buffer))
}

// What was hashed of the file at this place, or why nothing was, by what came of its visit.
fn found_of(
    place: usize,
    answer: Result<Option<Hashed>, DeviceFault>,
) -> Result<FileHashes, PartFault>
    ensures { result ≡ found_by place answer }
{
    match answer {
        Ok(Some(Ok(Some(found)))) => Ok(found),
        Ok(None | Some(Ok(None))) => Err(PartFault::Changed(place)),
        Ok(Some(Err(ReadFault::NoMemory))) => Err(PartFault::NoMemory),
        Ok(Some(Err(ReadFault::Device))) | Err(_) => Err(PartFault::Device(place)),
    }
}
