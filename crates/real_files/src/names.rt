//! The names in a folder, also those that are not UTF-8.
use crate::system::System;
use std::fs::Files;
use std::io::{self, ErrorKind, Read};

// Room for several names, of which the longest has 255 bytes.
const ROOM: usize = 4096;

/// The names of what stands in the folder with this path, each ended by a NUL, `.` and `..` among
/// them.
pub(crate) fn names_in(system: &System, path: &str) -> io::Result<Vec<u8>> {
    let mut folder = system.rt().open_dir(path)?;
    let mut names = Vec::new(system.alloc());
    let mut room = [0u8; ROOM];
    for _ in 0..u64::MAX {
        let count = folder.read(&mut room)?;
        if count == 0 {
            return Ok(names);
        }
        names.extend_from_slice(&room[..count])?;
    }
    Err(io::Error::from(ErrorKind::Other))
}

/// Whether this is the name of what stands in a folder, and not of the folder or of the one above
/// it.
pub(crate) fn is_inside(name: &[u8]) -> bool {
    !matches!(name, b"" | b"." | b"..")
}
