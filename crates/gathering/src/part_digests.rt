//! What was found of a row of pieces, written.
ghost use Rattle.std.specs.Prelude.{◌≡◌, ℕ, ◌+◌, ◌^◌, ◌<◌, ◌≤◌, List, ◌++◌, length, OnOk};
ghost use Rattle.gathering.specs.Hashing.{AreHashesOf};
ghost use Rattle.gathering.specs.PartRows.{joined_hashes, row_cuts, row_nodes, row_text};

use crate::hashing::FileHashes;
use crate::kind::TorrentKind;
use crate::lifting::lifted;
use hashtree::Shape;
use std::alloc::AllocError;

/// Puts behind a text what was found of a row of pieces of a file of this length. Conditions: the
/// row has bytes, no more than a file may have, and in a file that is longer than a piece these are
/// hashes of whole pieces, but for the file's last one.
pub(crate) fn put_digests(
    text: &mut Vec<u8>,
    kind: &TorrentKind,
    length: u64,
    found: &FileHashes,
) -> Result<(), AllocError>
    requires some { 0 < found.now.length }
    requires fits { found.now.length ≤ 2 ^ 46 }
    ensures { OnOk result ((row : List ℕ)
        → AreHashesOf kind.now.piece_length kind.now.hybrid row found.now
        → text.new.items ≡ text.old.items
        ++ row_text kind.now.piece_length kind.now.hybrid length row) }
{
    put_nodes(text, kind, length, found)?;
    if kind.hybrid {
        put_cuts(text, found)?;
    }
    Ok(())
}

// Puts the nodes over the pieces behind a text.
fn put_nodes(
    text: &mut Vec<u8>,
    kind: &TorrentKind,
    length: u64,
    found: &FileHashes,
) -> Result<(), AllocError>
    requires some { 0 < found.now.length }
    requires fits { found.now.length ≤ 2 ^ 46 }
    ensures { OnOk result ((row : List ℕ)
        → AreHashesOf kind.now.piece_length kind.now.hybrid row found.now
        → text.new.items ≡ text.old.items
        ++ joined_hashes (row_nodes kind.now.piece_length length row)) }
{
    kind.recall_legal();
    let layer = Shape::of(kind.piece_length.bytes()).unwrap().height();
    if length <= kind.piece_length.bytes() {
        return text.extend_from_slice(&found.root);
    }
    if Shape::of(found.length).unwrap().height() < layer {
        return text.extend_from_slice(&lifted(found.root, found.length, layer));
    }
    'nodes: for node in &found.layer {
        text.extend_from_slice(node)?;
    }
    Ok(())
}

// Puts the digests of a hybrid's cuts behind a text.
fn put_cuts(text: &mut Vec<u8>, found: &FileHashes) -> Result<(), AllocError>
    ensures { OnOk result (text.new.items
        ≡ text.old.items ++ (joined_hashes found.now.v1.cuts.items ++ found.now.v1.padded)) }
{
    'cuts: for cut in &found.v1.cuts {
        text.extend_from_slice(cut)?;
    }
    text.extend_from_slice(&found.v1.padded)
}
