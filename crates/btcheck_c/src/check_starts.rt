//! Which file or pieces a check is of.

ghost use Rattle.std.specs.Prelude.{◌≡◌, ◌<◌, ◌≤◌, Ok, Err};
ghost use Rattle.std.specs.Result.{MatchResult};
ghost use Rattle.opening.specs.Seen.{tree_entry};
ghost use Rattle.opening.specs.Sound.{IsSoundTree};
ghost use Rattle.btcheck_c.specs.CheckCalls.{ChecksFile, ChecksPieces, FindsTree};

use crate::file_check::FileCheck;
use c_layouts::status::{NO_MEMORY, NO_ROOT, NO_SUCH};
use hashtree::NoMemory;
use opening::{Torrent, TreeInfo};
use pieces::PieceLength;
use std::alloc::Global;

/// A check of a file that was given nothing yet, or the status.
pub(crate) fn begun(
    alloc: Global,
    torrent: &Torrent<'static>,
    number: usize,
) -> Result<FileCheck, u32>
    ensures { ChecksFile torrent.now number result }
{
    torrent.recall_sound();
    match tree_of(torrent, number) {
        Err(status) => Err(status),
        Ok(tree) => {
            let piece_length = PieceLength::new(torrent.piece_length()).unwrap();
            let count = piece_length.pieces(tree.length);
            or_no_memory(FileCheck::new(alloc, tree, piece_length, 0, count))
        }
    }
}

/// A check of a file's pieces from one number up to another that was given nothing yet, or the
/// status.
pub(crate) fn pieces_check_of(
    alloc: Global,
    torrent: &Torrent<'static>,
    number: usize,
    from: u64,
    to: u64,
) -> Result<FileCheck, u32>
    ensures { ChecksPieces torrent.now number from to result }
{
    torrent.recall_sound();
    match tree_of(torrent, number) {
        Err(status) => Err(status),
        Ok(tree) => {
            let piece_length = PieceLength::new(torrent.piece_length()).unwrap();
            if from >= to || to > piece_length.pieces(tree.length) {
                return Err(NO_SUCH);
            }
            or_no_memory(FileCheck::new(alloc, tree, piece_length, from, to))
        }
    }
}

// The tree of a file, or the status.
fn tree_of<'s>(torrent: &'s Torrent<'static>, number: usize) -> Result<&'s TreeInfo<'static>, u32>
    ensures { FindsTree torrent.now number result }
{
    torrent.recall_sound();
    match torrent.files().get(number) {
        None => Err(NO_SUCH),
        Some(file) => match file.tree {
            None => Err(NO_ROOT),
            Some(tree) => Ok(&torrent.trees()[tree]),
        },
    }
}

// A check, or the status of refused memory.
fn or_no_memory(made: Result<FileCheck, NoMemory>) -> Result<FileCheck, u32>
    ensures { MatchResult made (λ check. result ≡ Ok check) (λ _. result ≡ Err 2) }
{
    match made {
        Err(_) => Err(NO_MEMORY),
        Ok(check) => Ok(check),
    }
}
