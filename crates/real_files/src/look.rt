//! What a path leads to.
use crate::identity::Identity;
use crate::paths::path_below;
use crate::system::{Cause, System};
use std::alloc::AllocError;
use std::fs::{self, Metadata};
use std::io::{self, ErrorKind};

/// What has a path.
#[derive(Clone, Copy)]
pub(crate) enum Found {
    /// A regular file of this length.
    File(u64),
    /// A folder.
    Folder(Identity),
    /// Neither, of this length, and why a link was not followed.
    Special(u64, Option<Cause>),
}

impl Found {
    fn of(found: &Metadata) -> Found {
        if found.is_file() {
            return Found::File(found.len());
        }
        match Identity::of_folder(found) {
            Some(folder) => Found::Folder(folder),
            None => Found::Special(found.len(), None),
        }
    }
}

/// What has this path, itself or where it leads to. A link that leads nowhere is special.
pub(crate) fn look(system: &System, path: &str, follows_links: bool) -> io::Result<Found> {
    let found = fs::symlink_metadata(system.rt(), path)?;
    if !follows_links || !found.is_symlink() {
        return Ok(Found::of(&found));
    }
    match fs::metadata(system.rt(), path) {
        Ok(there) => Ok(Found::of(&there)),
        Err(error) if leads_nowhere(error.kind()) => {
            Ok(Found::Special(found.len(), Some(Cause::Error(error))))
        }
        Err(error) => Err(error),
    }
}

fn leads_nowhere(kind: ErrorKind) -> bool {
    matches!(
        kind,
        ErrorKind::NotFound | ErrorKind::NotADirectory | ErrorKind::FilesystemLoop
    )
}

/// Whether this folder, which has these path components below the folder with this path, is one of
/// those on the way to it.
pub(crate) fn is_on_its_way(
    system: &System,
    dir: &str,
    path: &[String],
    folder: Identity,
) -> Result<bool, AllocError> {
    'above: for count in 0..path.len() {
        let above = path_below(system.alloc(), dir, &path[..count])?;
        if Identity::of_folder_at(system.rt(), above.as_str()) == Some(folder) {
            return Ok(true);
        }
    }
    Ok(false)
}

/// How long the regular file with this path is. Symlinks are followed.
pub(crate) fn regular_length(system: &System, path: &str) -> io::Result<u64> {
    let found = fs::metadata(system.rt(), path)?;
    if found.is_file() {
        return Ok(found.len());
    }
    Err(io::Error::from(if found.is_dir() {
        ErrorKind::IsADirectory
    } else {
        ErrorKind::InvalidInput
    }))
}
