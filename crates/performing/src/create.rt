//! `create`: a torrent of a folder or of a file.
use crate::excluded::refuse_globs;
use crate::origin::{choice_of, folder_of, is_file, may_leave_out, path_of, shelf_at};
use actions::{Create, NewTorrent, PieceLengthChoice, auto_length};
use benc::FromWrite;
use commands::outcomes;
use drafts::Draft;
use excluding::Excluding;
use filetree::Refusal;
use folders::Shelf;
use globs::{Glob, read_globs};
use lines::Nowhere;
use printing::Fault;
use real_files::{
    Cause, Cleared, Folder, FolderLengths, Noted, Progress, StandardOutput, System, bytes_of,
    create_new_output, create_output, refuse_if_there,
};
use std::alloc::AllocError;
use std::fs::File;
use std::io::BufWriter;

/// Makes a torrent of a folder or of a file. What is no glob is refused before anything is read.
/// Gives the exit status.
pub(crate) fn perform_create<'a>(system: &System, asked: &NewTorrent<'a>) -> Result<u8, Fault<'a>> {
    let progress = Progress::new(system.rt(), None);
    let mut out = StandardOutput::unbuffered(system).below(&progress);
    if asked.exclude.is_empty() {
        return create_of_all(system, asked, &progress, &mut out);
    }
    match read_globs(system.alloc(), asked.exclude.as_slice()) {
        Ok(globs) => create_without(system, asked, &globs, &progress, &mut out),
        Err(fault) => refuse_globs(system, asked.exclude.as_slice(), fault),
    }
}

fn create_of_all<'a, 's>(
    system: &'s System,
    asked: &NewTorrent<'a>,
    progress: &'s Progress,
    out: &mut StandardOutput<'_>,
) -> Result<u8, Fault<'a>> {
    refuse_clobbering(system, asked)?;
    let (path, alone) = (path_of(asked.origin), is_file(asked.origin));
    let mut folder = shelf_at(system, path, alone, progress).choosing(choice_of(asked));
    let draft = gather(system, asked, &mut folder, out)?;
    write_gathered(system, asked, draft, &folder, progress, out)
}

// Without the files that the globs leave out.
fn create_without<'a, 's>(
    system: &'s System,
    asked: &NewTorrent<'a>,
    globs: &'s [Glob],
    progress: &'s Progress,
    out: &mut StandardOutput<'_>,
) -> Result<u8, Fault<'a>> {
    refuse_clobbering(system, asked)?;
    let (path, alone) = (path_of(asked.origin), is_file(asked.origin));
    let shelf = shelf_at(system, path, alone, progress)
        .choosing(choice_of(asked))
        .without(globs);
    let (draft, folder) = gather_without(system, asked, shelf, globs, out)?;
    write_gathered(system, asked, draft, &folder, progress, out)
}

// Gathers what a shelf lists without the files that the globs leave out, and gives the shelf back.
fn gather_without<'a, S: Shelf + Drop>(
    system: &System,
    asked: &NewTorrent<'a>,
    shelf: S,
    globs: &[Glob],
    out: &mut StandardOutput<'_>,
) -> Result<(Result<Draft, u8>, S), Fault<'a>> {
    let mut kept = Excluding::new(system.alloc(), shelf, globs);
    let draft = gather(system, asked, &mut kept, out)?;
    Ok((draft, kept.into_inner()))
}

/// What is there already is seen before anything is read, if it is to stay.
pub(crate) fn refuse_clobbering<'a>(
    system: &System,
    asked: &NewTorrent<'a>,
) -> Result<(), Fault<'a>> {
    if asked.no_clobber {
        refuse_if_there(system, asked.out)?;
    }
    Ok(())
}

// Gathers what a shelf lists.
fn gather<'a, S: Shelf>(
    system: &System,
    asked: &NewTorrent<'a>,
    shelf: &mut S,
    out: &mut StandardOutput<'_>,
) -> Result<Result<Draft, u8>, Fault<'a>> {
    let create = Create {
        dir: path_of(asked.origin),
        name: asked.name,
        piece_length: piece_length(system, asked, shelf)?,
        hybrid: asked.hybrid,
    };
    let mut lengths = FolderLengths::new(system, folder_of(asked.origin));
    outcomes::gather(system.alloc(), &create, shelf, &mut lengths, out)
}

/// How many bytes a piece has.
pub(crate) fn piece_length<S: Shelf>(
    system: &System,
    asked: &NewTorrent<'_>,
    shelf: &mut S,
) -> Result<u64, AllocError> {
    match asked.piece_length {
        PieceLengthChoice::Bytes(bytes) => Ok(bytes),
        PieceLengthChoice::Auto => {
            let bytes = all_bytes(system, folder_of(asked.origin), shelf)?;
            Ok(auto_length(bytes))
        }
    }
}

// How many bytes the files have that a shelf lists of this folder. What cannot be listed is a fault
// of the gathering, which lists it again.
fn all_bytes<S: Shelf>(system: &System, dir: &str, shelf: &mut S) -> Result<u64, AllocError> {
    match shelf.list() {
        Ok(paths) => bytes_of(system, dir, paths.as_slice()),
        Err(_) => Ok(0),
    }
}

// The torrent's file is opened once all files are hashed, and stays untouched if one is refused or
// all are left out. It is none of those files.
fn write_gathered<'a>(
    system: &System,
    asked: &NewTorrent<'a>,
    gathered: Result<Draft, u8>,
    folder: &Folder<'_>,
    progress: &Progress,
    out: &mut StandardOutput<'_>,
) -> Result<u8, Fault<'a>> {
    match gathered {
        Ok(draft) => {
            if folder.has_opened(asked.out) {
                system.note(Cause::IsInput);
                return Err(Fault::Write(asked.out));
            }
            if may_leave_out(asked) && is_of_nothing(&draft) {
                return outcomes::write_torrent(&draft, asked.out, &mut Nowhere::new(), out);
            }
            let file = open_output(system, asked)?;
            write_torrent(system, &draft, file, asked.out, progress, out)
        }
        Err(status) => Ok(status),
    }
}

// Whether a draft has no file.
fn is_of_nothing(draft: &Draft) -> bool {
    matches!(draft.finish(&mut Nowhere::new()), Err(Refusal::NoFiles))
}

/// The file that is written.
pub(crate) fn open_output<'a>(system: &System, asked: &NewTorrent<'a>) -> Result<File, Fault<'a>> {
    if asked.no_clobber {
        create_new_output(system, asked.out)
    } else {
        create_output(system, asked.out, &[])
    }
}

fn write_torrent<'a>(
    system: &System,
    draft: &Draft,
    file: File,
    path: &'a str,
    progress: &Progress,
    out: &mut StandardOutput<'_>,
) -> Result<u8, Fault<'a>> {
    let Ok(buffered) = BufWriter::new(system.alloc(), Noted::new(file, system)) else {
        return Err(Fault::NoMemory);
    };
    let mut torrent = Cleared::new(FromWrite::new(buffered), Some(progress));
    outcomes::write_torrent(draft, path, &mut torrent, out)
}
