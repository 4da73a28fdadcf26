//! What else stands below a folder that holds the files of a torrent.
use crate::choice::Choice;
use crate::listing::{Listing, Special};
use crate::paths::path_below;
use crate::system::System;
use folders::ShelfFault;
use opening::Torrent;
use std::alloc::{AllocError, Global};
use std::collections::BTreeSet;
use std::fs;

/// The paths below a folder of what is no folder and has no path of a file of the torrent, nor one
/// of a folder on the way to it, in the order of paths. If there is no such folder, there is none.
pub fn others_below(
    system: &System,
    dir: &str,
    torrent: &Torrent<'_>,
) -> Result<Vec<Vec<String>>, ShelfFault> {
    let alloc = system.alloc();
    let named = named(alloc, torrent)?;
    let mut others = Vec::new(alloc);
    'files: for path in listed(system, dir)? {
        if !named.contains(&path_below(alloc, "", path.as_slice())?) {
            if others.push(path).is_err() {
                return Err(ShelfFault::NoMemory);
            }
        }
    }
    others.sort_unstable();
    Ok(others)
}

// All that is listed below a folder, if there is such a folder.
fn listed<'s>(system: &'s System, dir: &'s str) -> Result<Vec<Vec<String>>, ShelfFault> {
    if !has_folder(system, dir) {
        return Ok(Vec::new(system.alloc()));
    }
    let listing = Listing {
        system,
        dir,
        only: None,
        without: &[],
        choice: Choice::strict(),
        special: Special::Listed,
    };
    Ok(listing.walk()?.files)
}

/// Whether this path is that of a folder.
pub fn has_folder(system: &System, path: &str) -> bool {
    match fs::metadata(system.rt(), path) {
        Ok(found) => found.is_dir(),
        Err(_) => false,
    }
}

// The paths of the files of a torrent, and of the folders on the way to them, each component behind
// a `/`.
fn named(alloc: Global, torrent: &Torrent<'_>) -> Result<BTreeSet<String>, AllocError> {
    let mut named = BTreeSet::new(alloc);
    'files: for file in torrent.files() {
        let mut path = String::new(alloc);
        let parts = file.path.parts();
        for part in parts.as_slice() {
            path.push('/')?;
            path.push_str(*part)?;
            named.insert(path.clone()?)?;
        }
    }
    Ok(named)
}
