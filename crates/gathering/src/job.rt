//! What is done in a pass that gathers a draft: each file is hashed, and added to the draft.
ghost use Rattle.std.specs.Prelude.{◌≡◌, ℕ, ◌<◌, ◌≤◌, ◌^◌, List, Some, length, map, slice_get, true, IfOk, OnErr};
ghost use Rattle.std.specs.String.{string_bytes};
ghost use Rattle.std.specs.Vec.{vec_capacity};
ghost use Rattle.benc.specs.Device.{CountsFault};
ghost use Rattle.folders.specs.Shelf.{path_bytes};
ghost use Rattle.gathering.specs.Adding.{AddsFound, IsFoundOfContent};
ghost use Rattle.gathering.specs.Passing.{FindsHashes, IsHeldToAdd, fault_of, found_as};
ghost use Rattle.gathering.specs.Reading.{Finds, FindsWholeContent};
ghost use Rattle.gathering.specs.Steps.{ArePathsWithin};
ghost use Rattle.passes.specs.Held.{IsReadUpTo, content};
ghost use Rattle.passes.specs.Passing.{ReadsFor};
ghost use Rattle.pieces.specs.FileCuts.{IsV1File};

use crate::file_fault::FileFault;
use crate::hashing::{FileHashes, no_cuts};
use crate::kind::TorrentKind;
use crate::reading::{hash_bytes, hash_long};
use benc::{DeviceFault, Source};
use drafts::Draft;
use filetree::Refusal;
use folders::{Lengths, ReadFault, Shelf, fill};
use hashtree::{MAX_LENGTH, NoMemory, recall_hashes};
use passes::{HeldFiles, Job, Nothing};
use pieces::{PieceBuffer, V1File};
use std::alloc::Global;

/// What a draft is given of a file, or why it gets nothing.
pub(crate) type Found = Result<FileHashes, FileFault>;

/// Hashes the files under listed paths, and adds each to a draft.
#[derive(Drop)]
pub(crate) struct GatherJob<'p, 'k> {
    pub(crate) alloc: Global,
    pub(crate) kind: &'k TorrentKind,
    pub(crate) paths: &'p [Vec<String>],
}

/// What gathering writes to as it works.
#[derive(Drop)]
pub(crate) struct GatherScratch<'p, 'l, L> {
    // The components of the path that is looked at or added.
    pub(crate) parts: Vec<&'p str>,
    // What is asked how long a file is, and how long the one is that was opened, if that is known
    // and helps.
    pub(crate) lengths: &'l mut L,
    pub(crate) expected: Option<u64>,
    pub(crate) buffer: PieceBuffer,
}

impl<'p, 'l, S: Shelf, L: Lengths> Job<S, GatherScratch<'p, 'l, L>, Draft, ()>
    for GatherJob<'p, '_> {
    ghost use Rattle.drafts.specs.Outline.{Outline};
    ghost use Rattle.gathering.specs.Passing.{gather_task};

    type Found = Found;

    type Stop = FileFault;

    ghost Item = { List (List ℕ) };

    ghost State = { Outline };

    ghost state = { λ draft _. draft };

    ghost fits = { λ j s. ArePathsWithin (map path_bytes j.paths.now) (vec_capacity s.parts) };

    ghost task = { λ j. gather_task (record {
      paths = map path_bytes j.paths.now;
      piece_length = j.kind.now.piece_length;
      hybrid = j.kind.now.hybrid;
    }) };

    fn len(&self) -> usize {
        self.paths.len()
    }

    fn open(
        &self,
        scratch: &mut GatherScratch<'p, 'l, L>,
        shelf: &mut S,
        number: usize,
    ) -> Option<Result<Option<S::File>, DeviceFault>> {
        put_parts(&self.paths[number], &mut scratch.parts);
        scratch.expected = expected_length(self.kind, scratch.lengths, &scratch.parts);
        Some(shelf.open(&scratch.parts))
    }

    fn read(
        &self,
        scratch: &mut GatherScratch<'p, 'l, L>,
        _number: usize,
        file: &mut S::File,
        held: &mut HeldFiles,
    ) -> Result<Option<Found>, DeviceFault> {
        let expected = scratch.expected;
        let buffer = scratch.buffer.as_mut_slice();
        read_or_hold(self.alloc, self.kind, expected, file, held, buffer)
    }

    fn found(
        &self,
        _scratch: &mut GatherScratch<'p, 'l, L>,
        _number: usize,
        held: &HeldFiles,
        place: usize,
    ) -> Found {
        match held.nothing(place) {
            None => found_whole(self.alloc, self.kind, held, place),
            Some(nothing) => Err(fault_of(nothing)),
        }
    }

    fn take(
        &self,
        scratch: &mut GatherScratch<'p, 'l, L>,
        number: usize,
        found: Found,
        kept: &mut Draft,
        _out: &mut (),
    ) -> Result<(), FileFault> {
        match found {
            Err(fault) => Err(fault),
            Ok(hashes) => {
                put_parts(&self.paths[number], &mut scratch.parts);
                add_found(kept, &scratch.parts, Ok(hashes), self.kind)
            }
        }
    }

    fn may_wait(
        &self,
        _scratch: &mut GatherScratch<'p, 'l, L>,
        _number: usize,
        held: &HeldFiles,
    ) -> bool {
        held.has_room(65_536)
    }

    fn stop_at(&self, _number: usize, nothing: Nothing) -> Option<FileFault> {
        match nothing {
            Nothing::Unasked => None,
            Nothing::Missing | Nothing::Failed => Some(fault_of(nothing)),
        }
    }
}

// Asks how long the file is that comes next, if that helps.
fn expected_length<L: Lengths>(kind: &TorrentKind, lengths: &mut L, path: &[&str]) -> Option<u64> {
    if kind.has_long_pieces() {
        lengths.length(path)
    } else {
        None
    }
}

// Why a path at which there is nothing is not added.
fn fault_of(nothing: Nothing) -> FileFault
    ensures { result ≡ fault_of nothing }
{
    match nothing {
        Nothing::Missing => FileFault::Changed,
        Nothing::Unasked | Nothing::Failed => FileFault::Device,
    }
}

// Reads a file to its end, or to one byte past the greatest length, and no further. It is held if
// it ends within the buffer and there is room for it.
fn read_or_hold<F: Source>(
    alloc: Global,
    kind: &TorrentKind,
    expected: Option<u64>,
    file: &mut F,
    held: &mut HeldFiles,
    buffer: &mut [u8],
) -> Result<Option<Found>, DeviceFault>
    requires some { 0 < length buffer.old }
    ensures reads { ReadsFor (FindsHashes kind.now.piece_length kind.now.hybrid)
        (IsReadUpTo (2 ^ 46)) (2 ^ 46) (F.seen file.old) (F.seen file.new) held.old held.new
        result }
    ensures counts { CountsFault (F.seen file.old).faults (F.seen file.new).faults result }
    ensures buffer { length buffer.new ≡ length buffer.old }
{
    let most = buffer.len().min(MAX_LENGTH as usize);
    let count = fill(file, &mut buffer[..most])?;
    if count == most {
        return found_or_fault(hash_long(alloc, file, kind, expected, most, buffer));
    }
    if held.hold(&buffer[..count]) {
        return Ok(None);
    }
    Ok(Some(hash_whole(alloc, kind, &buffer[..count])))
}

// What is found of a file that was read alone.
fn found_or_fault(read: Result<Option<FileHashes>, ReadFault>) -> Result<Option<Found>, DeviceFault>
    ensures { result ≡ found_as read }
{
    match read {
        Ok(Some(hashes)) => Ok(Some(Ok(hashes))),
        Ok(None) => Ok(Some(Err(FileFault::Refused(Refusal::Length)))),
        Err(ReadFault::NoMemory) => Ok(Some(Err(FileFault::NoMemory))),
        Err(ReadFault::Device) => Err(DeviceFault),
    }
}

// What is found of a file with these bytes.
fn hash_whole(alloc: Global, kind: &TorrentKind, bytes: &[u8]) -> Found
    requires { length bytes.now ≤ 2 ^ 46 }
    ensures { Finds kind.now.piece_length kind.now.hybrid bytes.now result }
{
    match hash_bytes(alloc, kind, bytes) {
        Ok(hashes) => Ok(hashes),
        Err(_) => Err(FileFault::NoMemory),
    }
}

// What is found of a file that is held and hashed.
fn found_whole(alloc: Global, kind: &TorrentKind, held: &HeldFiles, place: usize) -> Found
    requires held { IsHeldToAdd kind.now.piece_length kind.now.hybrid held.now place }
    ensures { (bytes : List ℕ) → slice_get held.now.answers place ≡ Some (content bytes)
        → Finds kind.now.piece_length kind.now.hybrid bytes result }
{
    match hashes_of(alloc, kind, held, place) {
        Ok(hashes) => Ok(hashes),
        Err(_) => Err(FileFault::NoMemory),
    }
}

// What a draft is given of a file that is held and hashed.
fn hashes_of(
    alloc: Global,
    kind: &TorrentKind,
    held: &HeldFiles,
    place: usize,
) -> Result<FileHashes, NoMemory>
    requires held { IsHeldToAdd kind.now.piece_length kind.now.hybrid held.now place }
    ensures found { (bytes : List ℕ) → slice_get held.now.answers place ≡ Some (content bytes)
        → FindsWholeContent kind.now.piece_length kind.now.hybrid bytes result }
    ensures short { (bytes : List ℕ) → slice_get held.now.answers place ≡ Some (content bytes)
        → length bytes ≤ 2 ^ 46 }
{
    let length = held.bytes(place).len();
    if length == 0 {
        return Ok(FileHashes::empty(alloc));
    }
    let root = held.root(place);
    let height = kind.piece_layer();
    let layer = held.layer(alloc, place, height)?;
    Ok(FileHashes {
        length: length as u64,
        root,
        layer,
        v1: digests_of(alloc, kind, held, place)?,
    })
}

// The digests of a hybrid's cuts, of a file that is held and hashed.
fn digests_of(
    alloc: Global,
    kind: &TorrentKind,
    held: &HeldFiles,
    place: usize,
) -> Result<V1File, NoMemory>
    requires held { IsHeldToAdd kind.now.piece_length kind.now.hybrid held.now place }
    ensures file { IfOk result (λ v1. kind.now.hybrid ≡ true → (bytes : List ℕ)
        → slice_get held.now.answers place ≡ Some (content bytes)
        → IsV1File kind.now.piece_length bytes v1) }
    ensures memory { OnErr result (kind.now.hybrid ≡ true) }
{
    if kind.hybrid {
        held.digests(alloc, place)
    } else {
        Ok(no_cuts(alloc))
    }
}

// Adds a file under this path, of which this was found.
fn add_found(
    draft: &mut Draft,
    path: &[&str],
    found: Found,
    kind: &TorrentKind,
) -> Result<(), FileFault>
    requires piece_length { draft.old.piece_length ≡ kind.now.piece_length }
    requires found { IsFoundOfContent draft.old found }
    ensures { (content : List ℕ) → Finds draft.old.piece_length draft.old.hybrid content found
        → AddsFound draft.old (map (λ s. s.now) path.now) content draft.new result }
{
    let hashes = match found {
        Ok(hashes) => hashes,
        Err(fault) => return Err(fault),
    };
    kind.recall_legal();
    recall_hashes(&hashes.layer);
    draft.add(path, hashes.length, hashes.root, &hashes.layer, &hashes.v1)?;
    Ok(())
}

/// Puts the components of a path into a list that has room for them, in place of what it has.
pub(crate) fn put_parts<'p>(path: &'p [String], parts: &mut Vec<&'p str>)
    requires room { length path.now ≤ vec_capacity parts.old }
    ensures parts { map (λ s. s.now) parts.new.items ≡ map string_bytes path.now }
    ensures no_memory { vec_capacity parts.new ≡ vec_capacity parts.old }
{
    parts.clear();
    'parts: for part in path {
        parts.push_reserved(part.as_str());
    }
}
