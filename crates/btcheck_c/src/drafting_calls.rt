//! The calls that make a torrent: files are added to a draft as their bytes come, and the draft is
//! written.

ghost use Rattle.std.specs.Prelude.{◌≡◌, ◌≢◌, None};
ghost use Rattle.btcheck_c.specs.Drafting.{AddsFileTo, DraftMade, DraftWritten, FileStarted, FinishesDraft, OnDraft, PushesPart, StartsFile, WithFile};
ghost use Rattle.btcheck_c.specs.Holds.{BegunFrom, FillsHandle, Through, ThroughBoth};
ghost use Rattle.btcheck_c.specs.declared.thing.Kind.TheVariants as kind;

use crate::handle::Handle;
use crate::lending::lend;
use crate::thing::Kind;
use c_layouts::draft_status::{refused_draft, write_bytes};
use c_layouts::status::{DONE, NO_MEMORY, TOO_LONG, WRONG_HANDLE};
use drafting::{ComingFile, OpenDraft};
use std::alloc::Global;

fn file_of(alloc: Global, draft: &OpenDraft) -> Result<ComingFile, u32>
    ensures { StartsFile (kind.Draft draft.now) result (kind.Draft draft.now) }
{
    Ok(draft.new_file(alloc))
}

fn start_file(alloc: Global, draft: &mut Handle) -> Result<ComingFile, u32>
    ensures { BegunFrom StartsFile draft.old.slot.held result draft.new.slot.held }
{
    lend!(draft, alloc, Draft(lent) => file_of(alloc, lent), else Err(WRONG_HANDLE))
}

fn push_part(file: &mut ComingFile, bytes: &[u8]) -> u32
    ensures { PushesPart bytes.now (kind.File file.old) result (kind.File file.new) }
{
    if bytes.len() as u64 > file.left() {
        return TOO_LONG;
    }
    match file.push(bytes) {
        Err(_) => NO_MEMORY,
        Ok(()) => DONE,
    }
}

// Adds the file under this path, if it is one for such a draft.
fn add_file(alloc: Global, draft: &mut OpenDraft, file: &mut ComingFile, path: &[u8]) -> u32
    ensures { AddsFileTo path.now draft.old file.old result draft.new file.new }
{
    if !draft.fits(file) {
        return WRONG_HANDLE;
    }
    match draft.add(alloc, file, path) {
        Err(refusal) => refused_draft(&refusal),
        Ok(()) => DONE,
    }
}

fn add(alloc: Global, draft: &mut OpenDraft, file: &mut Handle, path: &[u8]) -> u32
    ensures { WithFile (AddsFileTo path.now) draft.old file.old.slot.held result draft.new
        file.new.slot.held }
{
    lend!(file, alloc, File(lent) => add_file(alloc, draft, lent, path))
}

// The status of the draft's text, which goes to the front of the room.
fn write_draft(alloc: Global, draft: &OpenDraft, room: &mut [u8], length: &mut u64) -> u32
    ensures done { DraftWritten draft.now result room.old room.new length.new }
    ensures unwritten { result ≢ 0 → (room.new ≡ room.old)
        × (result ≢ 7 → length.new ≡ length.old) }
{
    match draft.text(alloc) {
        Err(refusal) => refused_draft(&refusal),
        Ok(text) => write_bytes(&text, room, length),
    }
}

fn finish(alloc: Global, draft: &OpenDraft, room: &mut [u8], length: &mut u64) -> u32
    ensures done { FinishesDraft room.old room.new length.new (kind.Draft draft.now) result
        (kind.Draft draft.now) }
    ensures unwritten { result ≢ 0 → (room.new ≡ room.old)
        × (result ≢ 7 → length.new ≡ length.old) }
{
    write_draft(alloc, draft, room, length)
}

/// Makes a draft of a torrent in an empty handle, which has no file yet: of this display name and
/// piece length in bytes, and whether it is a hybrid. Status 1: the handle is full. Status 2:
/// memory was refused. Status 104: the name is not UTF-8. Status 106: there is no such piece
/// length. Then the handle is as before.
#[unsafe(no_mangle)]
pub extern "C" fn btcheck_draft_new(
    alloc: Global,
    handle: &mut Handle,
    name: &[u8],
    piece_length: u64,
    hybrid: bool,
) -> u32
    ensures { FillsHandle (DraftMade name.now piece_length hybrid) handle.old.slot.held result
        handle.new.slot.held }
{
    if handle.is_full() {
        return WRONG_HANDLE;
    }
    match OpenDraft::new(alloc, name, piece_length, hybrid) {
        Err(refusal) => refused_draft(&refusal),
        Ok(draft) => handle.fill(alloc, Kind::Draft(draft)),
    }
}

/// Makes a file for a draft in an empty handle, of which nothing came yet. It can be added to every
/// draft of that piece length and kind. Status 1: the handle is full, or the other one holds no
/// draft. Status 2: memory was refused. Then the handle is as before. The draft is as before
/// always.
#[unsafe(no_mangle)]
pub extern "C" fn btcheck_draft_file_new(
    alloc: Global,
    handle: &mut Handle,
    draft: &mut Handle,
) -> u32
    ensures { FileStarted draft.old.slot.held handle.old.slot.held result handle.new.slot.held
        draft.new.slot.held }
{
    if handle.is_full() {
        return WRONG_HANDLE;
    }
    match start_file(alloc, draft) {
        Err(status) => status,
        Ok(file) => handle.fill(alloc, Kind::File(file)),
    }
}

/// Takes the file's next bytes. Status 1: the handle holds no file. Status 3: the file would be
/// longer than 2^46 bytes, or a draft refused it, and it has all its bytes. Then nothing is taken.
/// Status 2: memory for its digests was refused, and every later call on the file returns this too.
#[unsafe(no_mangle)]
pub extern "C" fn btcheck_draft_file_push(alloc: Global, handle: &mut Handle, bytes: &[u8]) -> u32
    ensures { Through (PushesPart bytes.now) handle.old.slot.held result handle.new.slot.held }
{
    lend!(handle, alloc, File(file) => push_part(file, bytes))
}

/// Adds a file to a draft under this path, whose components a `/` stands between. The file then
/// begins anew. Status 1: a handle holds something else, or the file is for drafts of another piece
/// length or kind; then both are as before. Status 2: memory was refused; if it was refused to the
/// file, that is lost. Status 108, 112, 114 or 122: the draft refuses the path, a root of two
/// lengths, more than 2^32 - 1 pieces in all, or a path beside those that it has. At each status
/// but 0 the draft is as before; at these the file has all its bytes, and can be added under
/// another path.
#[unsafe(no_mangle)]
pub extern "C" fn btcheck_draft_add(
    alloc: Global,
    draft: &mut Handle,
    file: &mut Handle,
    path: &[u8],
) -> u32
    ensures { ThroughBoth (OnDraft (AddsFileTo path.now)) draft.old.slot.held file.old.slot.held
        result draft.new.slot.held file.new.slot.held }
{
    lend!(draft, alloc, Draft(lent) => add(alloc, lent, file, path))
}

/// Writes the torrent file of the draft to the front of the room, and how many bytes it has. The
/// draft is as before always. Status 1: the handle holds no draft. Status 2: memory for the text
/// was refused. Status 7: the room has fewer bytes than the text, and the length is written.
/// Status 113: there is no file. Status 101: the text has more than 67,108,864 bytes. Then the room
/// stays as it is.
#[unsafe(no_mangle)]
pub extern "C" fn btcheck_draft_finish(
    alloc: Global,
    handle: &mut Handle,
    room: &mut [u8],
    length: &mut u64,
) -> u32
    ensures done { Through (FinishesDraft room.old room.new length.new) handle.old.slot.held result
        handle.new.slot.held }
    ensures unwritten { result ≢ 0 → (room.new ≡ room.old)
        × (result ≢ 7 → length.new ≡ length.old) }
{
    lend!(handle, alloc, Draft(draft) => finish(alloc, draft, room, length))
}

/// Frees what the handle holds, and empties it.
#[unsafe(no_mangle)]
pub extern "C" fn btcheck_draft_free(alloc: Global, handle: &mut Handle)
    ensures { handle.new.slot.held ≡ None }
{
    drop(handle.take(alloc));
}

/// Frees what the handle holds, and empties it.
#[unsafe(no_mangle)]
pub extern "C" fn btcheck_draft_file_free(alloc: Global, handle: &mut Handle)
    ensures { handle.new.slot.held ≡ None }
{
    drop(handle.take(alloc));
}
