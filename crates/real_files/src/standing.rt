//! What stands under a path.
use crate::system::System;
use std::fs;
use std::io::ErrorKind;

/// What stands under a path.
#[derive(Clone, Copy, Drop)]
pub enum Standing {
    /// A folder, or a link to one.
    Folder,
    /// Something that is no folder.
    NoFolder,
    /// Nothing.
    Nothing,
    /// The system does not say.
    Unknown,
}

impl Standing {
    /// What stands under this path.
    pub fn at(system: &System, path: &str) -> Standing {
        match fs::metadata(system.rt(), path) {
            Ok(found) if found.is_dir() => Standing::Folder,
            Ok(_) => Standing::NoFolder,
            Err(error) => match error.kind() {
                ErrorKind::NotFound | ErrorKind::NotADirectory => Standing::Nothing,
                _ => Standing::Unknown,
            },
        }
    }
}
