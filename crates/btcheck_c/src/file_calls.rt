//! The calls that read what a torrent holds: its files with their paths, and its info-hashes.

ghost use Rattle.std.specs.Prelude.{◌≡◌, ◌≢◌};
ghost use Rattle.btcheck_c.specs.Files.{HasFilePath, WritesCounts, WritesFile, WritesPath, WritesInfoHashes};
ghost use Rattle.btcheck_c.specs.Holds.{Through};
ghost use Rattle.btcheck_c.specs.declared.thing.Kind.TheVariants as kind;

use crate::handle::Handle;
use crate::lending::lend;
use crate::thing::Kind;
use c_layouts::file_info::{FileInfo, file_info};
use c_layouts::path_text::write_path;
use c_layouts::status::{DONE, NO_SUCH, WRONG_HANDLE};
use node_maps::Paged;
use opening::Torrent;
use session::OwnedSession;
use std::alloc::Global;

// The status of a file's path, and what is written of it.
fn write_path_of(torrent: &Torrent<'_>, number: usize, room: &mut [u8], length: &mut u64) -> u32
    ensures done { HasFilePath torrent.now number result room.old room.new length.new }
    ensures unwritten { result ≢ 0 → (room.new ≡ room.old)
        × (result ≢ 7 → length.new ≡ length.old) }
{
    match torrent.files().get(number) {
        None => NO_SUCH,
        Some(file) => write_path(&file.path.parts(), room, length),
    }
}

fn count_files(session: &OwnedSession<Paged>, files: &mut u64, trees: &mut u64) -> u32
    ensures done { WritesCounts files.new trees.new (kind.Session session.now) result
        (kind.Session session.now) }
    ensures unwritten { result ≢ 0 → (files.new ≡ files.old) × (trees.new ≡ trees.old) }
{
    *files = session.torrent().files().len() as u64;
    *trees = session.torrent().trees().len() as u64;
    DONE
}

fn file(session: &OwnedSession<Paged>, number: usize, out: &mut FileInfo) -> u32
    ensures done { WritesFile number out.new (kind.Session session.now) result
        (kind.Session session.now) }
    ensures unwritten { result ≢ 0 → out.new ≡ out.old }
{
    match file_info(session.torrent(), number) {
        None => NO_SUCH,
        Some(info) => {
            *out = info;
            DONE
        }
    }
}

fn info_hashes(session: &OwnedSession<Paged>, v2: &mut [u8; 32], v1: &mut [u8; 20]) -> u32
    ensures done { WritesInfoHashes v2.new v1.new (kind.Session session.now) result
        (kind.Session session.now) }
    ensures unwritten { result ≢ 0 → (v2.new ≡ v2.old) × (v1.new ≡ v1.old) }
{
    *v2 = session.torrent().info_hash_v2();
    *v1 = session.torrent().info_hash_v1();
    DONE
}

/// Writes how many files and how many trees the torrent has. Status 1: the handle holds no session.
/// The session is as before.
#[unsafe(no_mangle)]
pub extern "C" fn btcheck_session_files(
    alloc: Global,
    handle: &mut Handle,
    files: &mut u64,
    trees: &mut u64,
) -> u32
    ensures done { Through (WritesCounts files.new trees.new) handle.old.slot.held result
        handle.new.slot.held }
    ensures unwritten { result ≢ 0 → (files.new ≡ files.old) × (trees.new ≡ trees.old) }
{
    lend!(handle, alloc, Session(session) => count_files(session, files, trees))
}

/// Writes a file's length, its first piece, and its tree with its root. Status 1: the handle holds
/// no session. Status 5: there is no such file. The session is as before.
#[unsafe(no_mangle)]
pub extern "C" fn btcheck_session_file(
    alloc: Global,
    handle: &mut Handle,
    number: usize,
    out: &mut FileInfo,
) -> u32
    ensures done { Through (WritesFile number out.new) handle.old.slot.held result
        handle.new.slot.held }
    ensures unwritten { result ≢ 0 → out.new ≡ out.old }
{
    lend!(handle, alloc, Session(session) => file(session, number, out))
}

/// Writes a file's path to the front of the room, its components joined by `/`, and how many bytes
/// it has. Status 1: the handle holds no session. Status 5: there is no such file. Status 7: the
/// room has fewer bytes than the path, and stays as it is. The session is as before.
#[unsafe(no_mangle)]
pub extern "C" fn btcheck_session_path(
    alloc: Global,
    handle: &mut Handle,
    number: usize,
    room: &mut [u8],
    length: &mut u64,
) -> u32
    ensures done { Through (WritesPath number room.old room.new length.new) handle.old.slot.held
        result handle.new.slot.held }
    ensures unwritten { result ≢ 0 → (room.new ≡ room.old)
        × (result ≢ 7 → length.new ≡ length.old) }
{
    lend!(handle, alloc, Session(session) => write_path_of(session.torrent(), number, room, length))
}

/// Writes the info-hashes: the SHA-256 and the SHA-1 digest of the info dictionary. Status 1: the
/// handle holds no session. The session is as before.
#[unsafe(no_mangle)]
pub extern "C" fn btcheck_session_info_hashes(
    alloc: Global,
    handle: &mut Handle,
    v2: &mut [u8; 32],
    v1: &mut [u8; 20],
) -> u32
    ensures done { Through (WritesInfoHashes v2.new v1.new) handle.old.slot.held result
        handle.new.slot.held }
    ensures unwritten { result ≢ 0 → (v2.new ≡ v2.old) × (v1.new ≡ v1.old) }
{
    lend!(handle, alloc, Session(session) => info_hashes(session, v2, v1))
}
