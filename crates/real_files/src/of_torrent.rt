//! The files of a torrent as they stand below a folder.
use crate::fault::begin_reason;
use crate::paths::path_below;
use crate::system::System;
use opening::{File, Torrent};
use std::fs;
use std::io::Write;

/// Whether a regular file with the path and the length of one of a torrent's stands below a folder.
pub fn has_file_of(system: &System, dir: &str, torrent: &Torrent<'_>) -> bool {
    'files: for file in torrent.files() {
        if length_below(system, dir, file) == Some(file.length) {
            return true;
        }
    }
    false
}

/// Prints on standard error how many bytes a torrent's file has below a folder, and how many it
/// should have, if it still is of another length. What cannot be written is lost.
pub fn print_lengths(system: &System, dir: &str, file: &File<'_>) {
    let Ok(path) = path_below(system.alloc(), dir, file.path.parts().as_slice()) else {
        return;
    };
    match length_at(system, path.as_str()) {
        Some(length) if length != file.length => {
            begin_reason(system, path.as_str());
            let wanted = file.length;
            let _ = writeln!(system.rt().stderr(), "it has {length} bytes, not {wanted}");
        }
        _ => (),
    }
}

// How many bytes a torrent's file has below a folder, if a regular file stands there.
fn length_below(system: &System, dir: &str, file: &File<'_>) -> Option<u64> {
    let path = path_below(system.alloc(), dir, file.path.parts().as_slice()).ok()?;
    length_at(system, path.as_str())
}

// How many bytes the regular file with this path has, if there is one.
fn length_at(system: &System, path: &str) -> Option<u64> {
    let found = fs::metadata(system.rt(), path).ok()?;
    if found.is_file() {
        Some(found.len())
    } else {
        None
    }
}
