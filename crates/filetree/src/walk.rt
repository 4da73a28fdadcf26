//! The walks of a file tree, each to one file (BEP 52, "file tree").

ghost use Rattle.std.specs.Prelude.{◌≡◌, OnOk};
ghost use Rattle.benc.specs.View.{pairs_view, pair_view};
ghost use Rattle.filetree.specs.FileTree.{IsBadComponent};
ghost use Rattle.filetree.specs.Walked.{AddsWalks, AddsWalksAt, IsFolderAt, IsNodeBelow};

use crate::folder::Folders;
use crate::path::Path;
use crate::shape::is_file;
use benc::{Pair, Value};
use std::alloc::{AllocError, Global};
use std::str;

/// A file of the file tree: its path, and the value under its zero-length key.
#[derive(Drop)]
pub(crate) struct Found<'v, 'a> {
    pub(crate) path: Path<'a>,
    pub(crate) file: &'v Value<'a>,
}

/// Adds the files below a folder to those found, in the order of their paths.
#[cycle(walk)]
pub(crate) fn walk<'v, 'a>(
    alloc: Global,
    pairs: &'v [Pair<'a>],
    folder: &Folders,
    files: &mut Vec<Found<'v, 'a>>,
) -> Result<(), AllocError>
    requires { IsFolderAt folder.now (pairs_view pairs.now) }
    ensures { OnOk result (AddsWalks (pairs_view pairs.now) folder.now files.old files.new) }
{
    'pairs: for pair in pairs {
        walk_pair(alloc, pair, folder, files)?;
    }
    Ok(())
}

// Adds the file of a pair, or those below it, to the files found.
#[cycle(walk)]
fn walk_pair<'v, 'a>(
    alloc: Global,
    pair: &'v Pair<'a>,
    folder: &Folders,
    files: &mut Vec<Found<'v, 'a>>,
) -> Result<(), AllocError>
    requires { IsNodeBelow folder.now (pair_view pair.now) }
    ensures { OnOk result (AddsWalksAt (pair_view pair.now) folder.now files.old files.new) }
{
    let name = component(pair.key);
    let Value::Dict(inner) = &pair.value else {
        return Ok(());
    };
    if is_file(inner) {
        let path = Path::new(folder.share()?, name);
        files.push(Found {
            path,
            file: &inner[0].value,
        })?;
        return Ok(());
    }
    let below = folder.join(alloc, name)?;
    walk(alloc, inner, &below, files)
}

// A component that is not bad, which is UTF-8.
fn component(key: &[u8]) -> &str
    requires { IsBadComponent key.now → ⊥ }
    ensures { result.now ≡ key.now }
{
    match str::from_utf8(key) {
        Ok(name) => name,
        Err(_) => unreachable!(),
    }
}
