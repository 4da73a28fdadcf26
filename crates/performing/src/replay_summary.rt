//! `replay --summary`: how much of a torrent a record has.
ghost use Rattle.std.specs.Prelude.{◌<◌, length};

use crate::refused_counts::RefusedCounts;
use real_files::System;
use session::{Paged, Session};
use std::alloc::{AllocError, Global};
use std::io::Write;

// How many bytes a block has.
const BLOCK: u64 = 16_384;

// How many blocks and pieces there are, and how many of them are verified, the pieces with all
// their blocks.
#[derive(Clone, Copy, Drop)]
struct Verified {
    blocks: u64,
    all_blocks: u64,
    pieces: u64,
    all_pieces: u64,
}

/// Prints how many blocks and pieces of all files are verified, and what was not taken. `Err` is
/// out of memory. What cannot be written is lost.
pub(crate) fn print_replayed(
    system: &System,
    session: &Session<'_, Paged>,
    counts: RefusedCounts,
) -> Result<(), AllocError> {
    let all = of_files(system.alloc(), session)?;
    let mut out = system.rt().stderr();
    let _ = writeln!(
        out,
        "summary: {} of {} blocks verified, {} of {} pieces whole",
        all.blocks, all.all_blocks, all.pieces, all.all_pieces
    );
    let _ = writeln!(
        out,
        "summary: {} refused, {} false, {} dropped, {} held",
        counts.refused, counts.false_blocks, counts.dropped, counts.held
    );
    Ok(())
}

impl Verified {
    fn nothing() -> Verified {
        Verified {
            blocks: 0,
            all_blocks: 0,
            pieces: 0,
            all_pieces: 0,
        }
    }

    // The same and these.
    fn and(self, more: &Verified) -> Verified {
        Verified {
            blocks: self.blocks.saturating_add(more.blocks),
            all_blocks: self.all_blocks.saturating_add(more.all_blocks),
            pieces: self.pieces.saturating_add(more.pieces),
            all_pieces: self.all_pieces.saturating_add(more.all_pieces),
        }
    }
}

// Of all files. Those of one content have one tree, which is looked at once.
fn of_files(alloc: Global, session: &Session<'_, Paged>) -> Result<Verified, AllocError> {
    let trees = of_trees(alloc, session)?;
    let mut all = Verified::nothing();
    'files: for file in session.torrent().files() {
        if let Some(tree) = file.tree.and_then(|tree| trees.get(tree)) {
            all = all.and(tree);
        }
    }
    Ok(all)
}

// Of each tree.
fn of_trees(alloc: Global, session: &Session<'_, Paged>) -> Result<Vec<Verified>, AllocError> {
    let mut trees = Vec::new(alloc);
    'trees: for tree in 0..session.torrent().trees().len() {
        trees.push(of_tree(session, tree))?;
    }
    Ok(trees)
}

// Of the files of a tree.
fn of_tree(session: &Session<'_, Paged>, tree: usize) -> Verified
    requires { tree < length session.now.torrent.trees }
{
    let all_blocks = session.blocks(tree);
    let each = (session.torrent().piece_length() / BLOCK).max(1);
    let all_pieces = all_blocks.div_ceil(each);
    let mut pieces: u64 = 0;
    'pieces: for piece in 0..all_pieces {
        let first = piece.saturating_mul(each);
        let end = first.saturating_add(each).min(all_blocks);
        if is_whole(session, tree, first, end) {
            pieces = pieces.saturating_add(1);
        }
    }
    Verified {
        blocks: session.marked(tree),
        all_blocks,
        pieces,
        all_pieces,
    }
}

// Whether all blocks of a tree from one up to another are verified.
fn is_whole(session: &Session<'_, Paged>, tree: usize, first: u64, end: u64) -> bool
    requires { tree < length session.now.torrent.trees }
{
    'blocks: for block in first..end {
        if !session.is_marked(tree, block) {
            return false;
        }
    }
    true
}
