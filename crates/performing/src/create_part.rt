//! `create --part`: one part of the making of a torrent.
use crate::create::{open_output, piece_length, refuse_clobbering};
use crate::excluded::refuse_globs;
use crate::origin::{choice_of, folder_of, is_file, may_leave_out, path_of, shelf_at};
use actions::{Create, NewTorrent, NumberedPart, auto_length};
use benc::FromWrite;
use commands::{creations, outcomes};
use excluding::Excluding;
use filetree::Refusal;
use folders::Shelf;
use globs::{Glob, read_globs};
use part_texts::{Listing, listed_files};
use printing::Fault;
use real_files::{
    Cause, Cleared, Folder, Noted, Progress, StandardOutput, System, is_below, lengths_of,
};
use std::alloc::AllocError;

// What was listed, in order, or the exit status of a refusal.
type Listed = Result<Vec<Vec<String>>, u8>;

// The text of a part's hashes, or the exit status of a refusal.
type Hashed = Result<Vec<u8>, u8>;

/// Hashes one part of the files of a folder or of a file, and writes what it found. What is no glob
/// is refused before anything is read. Gives the exit status.
pub(crate) fn perform_create_part<'a>(
    system: &System,
    asked: &NewTorrent<'a>,
    part: NumberedPart,
) -> Result<u8, Fault<'a>> {
    let progress = Progress::new(system.rt(), None);
    let mut out = StandardOutput::unbuffered(system).below(&progress);
    if asked.exclude.is_empty() {
        return part_of_all(system, asked, part, &progress, &mut out);
    }
    match read_globs(system.alloc(), asked.exclude.as_slice()) {
        Ok(globs) => part_without(system, asked, part, &globs, &progress, &mut out),
        Err(fault) => refuse_globs(system, asked.exclude.as_slice(), fault),
    }
}

fn part_of_all<'a, 's>(
    system: &'s System,
    asked: &NewTorrent<'a>,
    part: NumberedPart,
    progress: &'s Progress,
    out: &mut StandardOutput<'_>,
) -> Result<u8, Fault<'a>> {
    refuse_clobbering(system, asked)?;
    let (path, alone) = (path_of(asked.origin), is_file(asked.origin));
    let mut folder = shelf_at(system, path, alone, progress)
        .choosing(choice_of(asked))
        .read_in_part();
    let paths = list(system, asked, &mut folder, out)?;
    let hashed = hash_listed(system, asked, part, paths, &mut folder, out)?;
    write_part(system, asked, hashed, progress)
}

// Without the files that the globs leave out.
fn part_without<'a, 's>(
    system: &'s System,
    asked: &NewTorrent<'a>,
    part: NumberedPart,
    globs: &'s [Glob],
    progress: &'s Progress,
    out: &mut StandardOutput<'_>,
) -> Result<u8, Fault<'a>> {
    refuse_clobbering(system, asked)?;
    let (path, alone) = (path_of(asked.origin), is_file(asked.origin));
    let folder = shelf_at(system, path, alone, progress)
        .choosing(choice_of(asked))
        .read_in_part()
        .without(globs);
    let (paths, mut folder) = list_without(system, asked, folder, globs, out)?;
    let hashed = hash_listed(system, asked, part, paths, &mut folder, out)?;
    write_part(system, asked, hashed, progress)
}

// Lists a shelf without the files that the globs leave out, and gives the shelf back.
fn list_without<'a, S: Shelf + Drop>(
    system: &System,
    asked: &NewTorrent<'a>,
    shelf: S,
    globs: &[Glob],
    out: &mut StandardOutput<'_>,
) -> Result<(Listed, S), Fault<'a>> {
    let mut kept = Excluding::new(system.alloc(), shelf, globs);
    let paths = list(system, asked, &mut kept, out)?;
    Ok((paths, kept.into_inner()))
}

// Lists a shelf.
fn list<'a, S: Shelf>(
    system: &System,
    asked: &NewTorrent<'a>,
    shelf: &mut S,
    out: &mut StandardOutput<'_>,
) -> Result<Listed, Fault<'a>> {
    let create = Create {
        dir: path_of(asked.origin),
        name: asked.name,
        piece_length: piece_length(system, asked, shelf)?,
        hybrid: asked.hybrid,
    };
    creations::list_files(system.alloc(), &create, shelf, out)
}

// Hashes one part of what was listed. Where all is left out there is nothing to hash.
fn hash_listed<'a>(
    system: &System,
    asked: &NewTorrent<'a>,
    part: NumberedPart,
    paths: Listed,
    folder: &mut Folder<'_>,
    out: &mut StandardOutput<'_>,
) -> Result<Hashed, Fault<'a>> {
    let paths = match paths {
        Ok(paths) => paths,
        Err(status) => return Ok(Err(status)),
    };
    if paths.is_empty() && may_leave_out(asked) {
        return Ok(Err(outcomes::refuse(&Refusal::NoFiles, &[], out)?));
    }
    if is_below(system, folder_of(asked.origin), paths.as_slice(), asked.out)? {
        system.note(Cause::IsInput);
        return Err(Fault::Write(asked.out));
    }
    let listing = listing_of(system, asked, paths)?;
    creations::hash_part(system.alloc(), &listing, folder, part, out)
}

// What is written of what was listed.
fn listing_of(
    system: &System,
    asked: &NewTorrent<'_>,
    paths: Vec<Vec<String>>,
) -> Result<Listing, AllocError> {
    let lengths = lengths_of(system, folder_of(asked.origin), paths.as_slice())?;
    let mut all: u64 = 0;
    'files: for length in &lengths {
        all = all.saturating_add(*length);
    }
    let piece_length = match asked.piece_length {
        actions::PieceLengthChoice::Bytes(bytes) => bytes,
        actions::PieceLengthChoice::Auto => auto_length(all),
    };
    Ok(Listing {
        name: String::from_str(system.alloc(), asked.name)?,
        piece_length,
        hybrid: asked.hybrid,
        files: listed_files(system.alloc(), paths, lengths.as_slice())?,
    })
}

// Writes the hashes of a part. Its file is opened once they are known, and stays untouched if one
// of the files that they are of is not read.
fn write_part<'a>(
    system: &System,
    asked: &NewTorrent<'a>,
    hashed: Hashed,
    progress: &Progress,
) -> Result<u8, Fault<'a>> {
    let text = match hashed {
        Ok(text) => text,
        Err(status) => return Ok(status),
    };
    let file = open_output(system, asked)?;
    let mut written = Cleared::new(FromWrite::new(Noted::new(file, system)), Some(progress));
    creations::write_part(text.as_slice(), asked.out, &mut written)
}
