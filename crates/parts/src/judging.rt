//! How a file is judged: as a row of pieces; and one that is held by the root of its tree and its
//! version 1 pieces, and only if one of these is another than is listed, as a row.
ghost use Rattle.std.specs.Prelude.{◌≡◌, ◌+◌, ◌^◌, ◌<◌, ◌≤◌, ℕ, List, true, IfOk, IsTrue, OnErr, length, slice_get, slice_range, Some};
ghost use Rattle.benc.specs.Device.{CountsFault};
ghost use Rattle.folders.specs.TakeAll.{IsReadWithin};
ghost use Rattle.folders.specs.Verdicts.{IsFileOf};
ghost use Rattle.opening.specs.Description.{Description, FileEntry};
ghost use Rattle.opening.specs.Seen.{file_entry};
ghost use Rattle.parts.specs.Passing.{AreCutsGood, AreCutsWhole, JudgesAnswer, JudgesContent, IsCutFor, IsJudgedGood, IsReadToCheck};
ghost use Rattle.passes.specs.Held.{GivesContent, as_answer, content};
ghost use Rattle.passes.specs.Passing.{ReadsFor};

use crate::places::{Span, piece_count};
use crate::row::read_pieces;
use crate::verdicts::Verdicts;
use benc::{DeviceFault, Source};
use folders::FileVerdict;
use opening::{File, Torrent};
use passes::{HeldFiles, Nothing, Read};
use pieces::V1;
use std::alloc::Global;

/// The verdicts on a file at whose path there is nothing to be held, for this reason.
pub(crate) fn verdicts_of(nothing: Nothing) -> Verdicts
    ensures { (t : Description) (f : FileEntry) → JudgesAnswer t f (as_answer nothing) result }
{
    match nothing {
        Nothing::Unasked | Nothing::Missing => Verdicts::not_whole(FileVerdict::Missing),
        Nothing::Failed => Verdicts::not_whole(FileVerdict::Unreadable),
    }
}

/// Reads an opened file. It is held if there is room for it; else it is judged at once. Conditions:
/// the torrent has the file, and the buffer is not empty.
pub(crate) fn read_or_hold<F: Source>(
    alloc: Global,
    torrent: &Torrent<'_>,
    entry: &File<'_>,
    file: &mut F,
    held: &mut HeldFiles,
    buffer: &mut [u8],
) -> Result<Option<Verdicts>, DeviceFault>
    requires some { 0 < length buffer.old }
    requires file { IsFileOf torrent.now (file_entry entry.now) }
    ensures reads { ReadsFor (JudgesAnswer torrent.now (file_entry entry.now))
        (IsReadToCheck entry.now.length) entry.now.length (F.seen file.old) (F.seen file.new)
        held.old held.new result }
    ensures counts { CountsFault (F.seen file.old).faults (F.seen file.new).faults result }
{
    match held.read(file, entry.length)? {
        Read::Held => Ok(None),
        Read::Other => Ok(Some(Verdicts::not_whole(FileVerdict::WrongLength))),
        Read::NoRoom => Ok(Some(judge_source(alloc, torrent, entry, file, buffer)?)),
    }
}

/// Reads a whole file, and judges it as a row of pieces. Nothing is read after its end was seen.
/// Conditions: the torrent has the file, and the buffer is not empty.
pub(crate) fn judge_source<F: Source>(
    alloc: Global,
    torrent: &Torrent<'_>,
    file: &File<'_>,
    source: &mut F,
    buffer: &mut [u8],
) -> Result<Verdicts, DeviceFault>
    requires some { 0 < length buffer.old }
    requires file { IsFileOf torrent.now (file_entry file.now) }
    ensures judged { IfOk result (λ v. (bytes : List ℕ)
        × GivesContent (IsReadToCheck file.now.length) bytes (F.seen source.old)
        (F.seen source.new) × JudgesContent torrent.now (file_entry file.now) bytes v) }
    ensures early { OnErr result (IsReadWithin file.now.length (F.seen source.old)
        (F.seen source.new)) }
    ensures counts { CountsFault (F.seen source.old).faults (F.seen source.new).faults result }
{
    torrent.recall_sound();
    let span = Span::of_all(torrent, file);
    let mut bits = Vec::new(alloc);
    let found = read_pieces(source, torrent, file, span, &mut bits, buffer)?;
    Ok(Verdicts::of_visit(file, Ok(Some(Ok(found))), true))
}

/// The verdicts on a file that is held and hashed. Conditions: the torrent has the file, and the
/// buffer is not empty.
pub(crate) fn judge_held(
    alloc: Global,
    torrent: &Torrent<'_>,
    file: &File<'_>,
    held: &HeldFiles,
    place: usize,
    buffer: &mut [u8],
) -> Verdicts
    requires some { 0 < length buffer.old }
    requires file { IsFileOf torrent.now (file_entry file.now) }
    requires hashed { held.now.is_hashed ≡ true }
    requires holds { IsCutFor torrent.now held.now.cutting }
    requires whole { (bytes : List ℕ)
        × (slice_get held.now.answers place ≡ Some (content bytes)) }
    ensures { (bytes : List ℕ) → slice_get held.now.answers place ≡ Some (content bytes)
        → JudgesContent torrent.now (file_entry file.now) bytes result }
{
    let bytes = held.bytes(place);
    if bytes.len() as u64 != file.length {
        return Verdicts::not_whole(FileVerdict::WrongLength);
    }
    if file.length > 0 && is_good(torrent, file, held, place) {
        return Verdicts::of_other();
    }
    judge_bytes(alloc, torrent, file, bytes, buffer)
}

// Whether a file is good, by its root and by its version 1 pieces.
fn is_good(torrent: &Torrent<'_>, file: &File<'_>, held: &HeldFiles, place: usize) -> bool
    requires file { IsFileOf torrent.now (file_entry file.now) }
    requires some { 0 < file.now.length }
    requires hashed { held.now.is_hashed ≡ true }
    requires holds { IsCutFor torrent.now held.now.cutting }
    requires whole { (bytes : List ℕ)
        × (slice_get held.now.answers place ≡ Some (content bytes))
        × (length bytes ≡ file.now.length) }
    ensures { IsTrue result → (bytes : List ℕ)
        → slice_get held.now.answers place ≡ Some (content bytes)
        → IsJudgedGood torrent.now (file_entry file.now) bytes }
{
    torrent.recall_sound();
    let Some(number) = file.tree else {
        unreachable!();
    };
    let root = held.root(place);
    root == torrent.trees()[number].root && are_cuts_good(torrent, file, held, place)
}

// Whether the version 1 pieces of a file are good, by their digests, or the torrent has none. It
// does not say so of a file whose last piece the stream's end cuts short, as no pad follows it.
// Conditions: the torrent has the file, which is not empty, and it is held and hashed.
fn are_cuts_good(torrent: &Torrent<'_>, file: &File<'_>, held: &HeldFiles, place: usize) -> bool
    requires file { IsFileOf torrent.now (file_entry file.now) }
    requires some { 0 < file.now.length }
    requires hashed { held.now.is_hashed ≡ true }
    requires holds { IsCutFor torrent.now held.now.cutting }
    requires whole { (bytes : List ℕ)
        × (slice_get held.now.answers place ≡ Some (content bytes))
        × (length bytes ≡ file.now.length) }
    ensures good { IsTrue result → (bytes : List ℕ)
        → slice_get held.now.answers place ≡ Some (content bytes)
        → AreCutsGood torrent.now (file_entry file.now) bytes }
    ensures always { AreCutsWhole torrent.now (file_entry file.now) → (bytes : List ℕ)
        → slice_get held.now.answers place ≡ Some (content bytes)
        → AreCutsGood torrent.now (file_entry file.now) bytes → IsTrue result }
{
    torrent.recall_sound();
    let Some(v1) = torrent.v1() else {
        return true;
    };
    let end = file.first_piece + piece_count(torrent, file);
    torrent.piece_length() * end <= v1.total
        && held.are_listed(place, listed(v1, file.first_piece, end))
}

// What is listed for these version 1 pieces.
fn listed<'t>(v1: &V1<'t>, from: u64, to: u64) -> &'t [[u8; 20]]
    requires order { from ≤ to }
    requires there { to ≤ length v1.now.pieces.now }
    ensures { result.now ≡ slice_range v1.now.pieces.now from to }
{
    &v1.pieces[from as usize..to as usize]
}

// Judges the bytes of a file as a row of pieces. Conditions: as above.
fn judge_bytes(
    alloc: Global,
    torrent: &Torrent<'_>,
    file: &File<'_>,
    bytes: &[u8],
    buffer: &mut [u8],
) -> Verdicts
    requires some { 0 < length buffer.old }
    requires file { IsFileOf torrent.now (file_entry file.now) }
    ensures { JudgesContent torrent.now (file_entry file.now) bytes.now result }
{
    let mut source = HeldBytes { rest: bytes };
    match judge_source(alloc, torrent, file, &mut source, buffer) {
        Ok(found) => found,
        Err(_) => unreachable!(),
    }
}

// The bytes of a file that is held, as a source that never fails.
#[derive(Drop)]
struct HeldBytes<'a> {
    rest: &'a [u8],
    ghost finite: { length rest.now < 2 ^ 64 },
}

impl<'a> Source for HeldBytes<'a> {
    ghost use Rattle.std.specs.Prelude.{length, Some};

    ghost seen = { λ s. record { left = Some s.rest.now; limit = length s.rest.now; faults = 0 } };

    fn read(&mut self, buf: &mut [u8]) -> Result<usize, DeviceFault> {
        let count = buf.len().min(self.rest.len());
        let (given, rest) = self.rest.split_at(count);
        buf[..count].copy_from_slice(given);
        self.rest = rest;
        Ok(count)
    }

    fn failures(&self) -> u64 {
        0
    }

    ghost finite = { λ s. s.finite };
}
