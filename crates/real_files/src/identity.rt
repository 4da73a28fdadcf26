//! Which file it is, whatever its path.
use std::fs::{self, Metadata};
use std::os::unix::fs::MetadataExt;

/// A regular file or a folder, by its device and its number there. All hard links of a file have
/// one identity.
#[derive(Clone, Copy, PartialEq, Eq)]
pub(crate) struct Identity {
    device: u64,
    inode: u64,
}

impl Identity {
    /// The file with this path, if it is a regular one. Symlinks are followed.
    pub(crate) fn at(rt: &HostRuntime, path: &str) -> Option<Identity> {
        match fs::metadata(rt, path) {
            Ok(found) => Identity::of(&found),
            Err(_) => None,
        }
    }

    /// What this was found to be, if it is a regular file.
    pub(crate) fn of(found: &Metadata) -> Option<Identity> {
        if found.is_file() {
            Some(Identity::found(found))
        } else {
            None
        }
    }

    /// The folder with this path, if it is one. Symlinks are followed.
    pub(crate) fn of_folder_at(rt: &HostRuntime, path: &str) -> Option<Identity> {
        match fs::metadata(rt, path) {
            Ok(found) => Identity::of_folder(&found),
            Err(_) => None,
        }
    }

    /// What this was found to be, if it is a folder.
    pub(crate) fn of_folder(found: &Metadata) -> Option<Identity> {
        if found.is_dir() {
            Some(Identity::found(found))
        } else {
            None
        }
    }

    fn found(found: &Metadata) -> Identity {
        Identity {
            device: found.dev(),
            inode: found.ino(),
        }
    }
}
