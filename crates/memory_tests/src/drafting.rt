//! A draft whose calls are made again if memory was refused.
ghost use Rattle.std.specs.Prelude.{◌≡◌, ◌<◌, IfOk, length, map};
ghost use Rattle.drafts.specs.Adding.{MayAdd, given_file};
ghost use Rattle.pieces.specs.Pieces.{pieces_of};
ghost use Rattle.opening.specs.Seen.{tree_entry};
ghost use Rattle.opening.specs.Sound.{IsSoundTree};

use crate::again::{name_refused, print_bytes, print_changed, print_refusal};
use benc::memory::MemSink;
use drafts::Draft;
use filetree::Refusal;
use opening::{File, Torrent, TreeInfo};
use pieces::V1File;
use std::alloc::{AllocError, Global};
use std::io;

/// Adds the torrent's files to a draft, the last one first, and prints the draft's torrent. The
/// digests of version 1 are made up.
pub(crate) fn draft_again(rt: &HostRuntime, torrent: &Torrent<'_>, hybrid: bool) -> io::Result<()> {
    match new_draft(rt, torrent.piece_length(), hybrid)? {
        Ok(mut draft) => {
            add_files(rt, &mut draft, torrent)?;
            print_draft(rt, &draft)
        }
        Err(refusal) => print_refusal(rt, &refusal),
    }
}

/// Prints the bytes of the torrent.
pub(crate) fn print_draft(rt: &HostRuntime, draft: &Draft) -> io::Result<()> {
    let text = text_of(rt, draft)?;
    print_bytes(rt, text.written())
}

// What the draft writes: nothing if it has no file.
fn text_of(rt: &HostRuntime, draft: &Draft) -> io::Result<MemSink> {
    let mut text = MemSink::with_room(rt.alloc(), 1 << 16)?;
    let _ = draft.finish(&mut text);
    Ok(text)
}

fn new_draft(
    rt: &HostRuntime,
    piece_length: u64,
    hybrid: bool,
) -> io::Result<Result<Draft, Refusal>>
    ensures { IfOk result (λ made. IfOk made (λ d. d.piece_length ≡ piece_length)) }
{
    let answer = Draft::new(rt.alloc(), "x", piece_length, hybrid);
    if let Err(Refusal::NoMemory) = answer {
        name_refused(rt, "new")?;
        return Ok(Draft::new(rt.alloc(), "x", piece_length, hybrid));
    }
    Ok(answer)
}

fn add_files(rt: &HostRuntime, draft: &mut Draft, torrent: &Torrent<'_>) -> io::Result<()>
    requires { draft.old.piece_length ≡ torrent.now.piece_length }
{
    torrent.recall_sound();
    let piece_length = torrent.piece_length();
    'files: for file in torrent.files().iter().rev() {
        let tree = tree_of(torrent, file);
        let v1 = digests(rt.alloc(), piece_length, tree.length)?;
        add_again(rt, draft, &file.path.parts(), &tree, &v1)?;
    }
    Ok(())
}

// The tree of a file; an empty file has one of no bytes.
fn tree_of<'a>(torrent: &Torrent<'a>, file: &File<'_>) -> TreeInfo<'a>
    ensures { torrent.now.piece_length < result.length
        → IsSoundTree torrent.now.piece_length (tree_entry result) }
{
    torrent.recall_sound();
    let trees = torrent.trees();
    match file.tree {
        Some(number) if number < trees.len() => trees[number],
        _ => TreeInfo {
            root: [0; 32],
            length: 0,
            layer: &[],
        },
    }
}

// A digest for each piece of a file of this many bytes.
fn digests(alloc: Global, piece_length: u64, bytes: u64) -> Result<V1File, AllocError>
    requires { 0 < piece_length }
    ensures { IfOk result (λ v1. length v1.cuts.items ≡ pieces_of piece_length bytes) }
{
    let count = bytes.div_ceil(piece_length);
    Ok(V1File {
        cuts: vec![in alloc; [7; 20]; count as usize]?,
        padded: [9; 20],
    })
}

// A draft that refused a file for memory still writes what it wrote before.
fn add_again(
    rt: &HostRuntime,
    draft: &mut Draft,
    path: &[&str],
    tree: &TreeInfo<'_>,
    v1: &V1File,
) -> io::Result<()>
    requires { MayAdd draft.old
        (given_file draft.old (map (λ s. s.now) path.now) tree.now.length tree.now.root v1.now)
        tree.now.layer.now }
    ensures { draft.new.piece_length ≡ draft.old.piece_length }
{
    let before = text_of(rt, draft)?;
    let mut answer = draft.add(path, tree.length, tree.root, tree.layer, v1);
    if let Err(Refusal::NoMemory) = answer {
        name_refused(rt, "add")?;
        compare_text(rt, draft, before.written())?;
        answer = draft.add(path, tree.length, tree.root, tree.layer, v1);
    }
    match answer {
        Ok(()) => Ok(()),
        Err(refusal) => print_refusal(rt, &refusal),
    }
}

fn compare_text(rt: &HostRuntime, draft: &Draft, before: &[u8]) -> io::Result<()> {
    if text_of(rt, draft)?.written() != before {
        print_changed(rt, "add")?;
    }
    Ok(())
}
