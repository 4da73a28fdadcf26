//! The adding of all listed files: a pass over their paths.
ghost use Rattle.std.specs.Prelude.{◌≡◌, map};
ghost use Rattle.std.specs.Vec.{vec_capacity};
ghost use Rattle.folders.specs.Shelf.{path_bytes};
ghost use Rattle.gathering.specs.Steps.{AddsAll, ArePathsWithin};

use crate::file_fault::FileFault;
use crate::job::{GatherJob, GatherScratch};
use crate::kind::TorrentKind;
use drafts::Draft;
use folders::{Lengths, Shelf};
use passes::{Stopped, pass};

/// Adds the files under these paths. The list has room for the components of each.
// It has a block in its frame, so it is not inlined.
#[inline(never)]
pub(crate) fn add_files<'p, S: Shelf, L: Lengths>(
    shelf: &mut S,
    lengths: &mut L,
    draft: &mut Draft,
    paths: &'p [Vec<String>],
    parts: Vec<&'p str>,
    kind: &TorrentKind,
) -> Result<(), Stopped<FileFault>>
    requires room { ArePathsWithin (map path_bytes paths.now) (vec_capacity parts) }
    requires piece_length { draft.old.piece_length ≡ kind.now.piece_length }
    requires hybrid { draft.old.hybrid ≡ kind.now.hybrid }
    ensures adds { AddsAll S.Shelf S.File.seen draft.old shelf.old (map path_bytes paths.now)
        draft.new shelf.new result }
    ensures stays { S.contents shelf.new ≡ S.contents shelf.old }
{
    let alloc = *parts.allocator();
    let mut held = kind.held(alloc, paths.len());
    let mut scratch = GatherScratch {
        parts,
        lengths,
        expected: None,
        buffer: kind.buffer(alloc),
    };
    let job = GatherJob { alloc, kind, paths };
    pass(shelf, &job, &mut scratch, &mut held, draft, &mut ())
}
