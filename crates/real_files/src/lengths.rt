//! How long files are.
use crate::identity::Identity;
use crate::paths::path_below;
use crate::system::System;
use folders::Lengths;
use std::alloc::AllocError;
use std::convert::AsStr;
use std::fs;

/// How long the files below a folder are, which is asked of the system file by file.
#[derive(Drop)]
pub struct FolderLengths<'a> {
    system: &'a System,
    dir: &'a str,
}

impl<'a> FolderLengths<'a> {
    /// The lengths of the files below the folder with this path.
    pub fn new(system: &'a System, dir: &'a str) -> FolderLengths<'a> {
        FolderLengths { system, dir }
    }
}

impl Lengths for FolderLengths<'_> {
    fn length(&mut self, path: &[&str]) -> Option<u64> {
        length_at(self.system, self.dir, path).unwrap_or(None)
    }
}

// How many bytes the file with these path components below a folder has, if it is there.
fn length_at<S: AsStr>(system: &System, dir: &str, path: &[S]) -> Result<Option<u64>, AllocError> {
    let system_path = path_below(system.alloc(), dir, path)?;
    match fs::metadata(system.rt(), system_path.as_str()) {
        Ok(found) => Ok(Some(found.len())),
        Err(_) => Ok(None),
    }
}

/// How many bytes the files with these path components below a folder have, of those that are
/// there.
pub fn bytes_of(system: &System, dir: &str, paths: &[Vec<String>]) -> Result<u64, AllocError> {
    let mut all: u64 = 0;
    'files: for path in paths {
        all = all.saturating_add(length_at(system, dir, path.as_slice())?.unwrap_or(0));
    }
    Ok(all)
}

/// How many bytes each file with these path components below a folder has; none of one that is not
/// there.
pub fn lengths_of(
    system: &System,
    dir: &str,
    paths: &[Vec<String>],
) -> Result<Vec<u64>, AllocError> {
    let mut lengths = Vec::new(system.alloc());
    'files: for path in paths {
        lengths.push(length_at(system, dir, path.as_slice())?.unwrap_or(0))?;
    }
    Ok(lengths)
}

/// Whether what has this path is one of the files with these path components below a folder, by
/// whatever paths.
pub fn is_below(
    system: &System,
    dir: &str,
    paths: &[Vec<String>],
    path: &str,
) -> Result<bool, AllocError> {
    let wanted = Identity::at(system.rt(), path);
    if wanted.is_none() {
        return Ok(false);
    }
    'files: for listed in paths {
        let system_path = path_below(system.alloc(), dir, listed.as_slice())?;
        if Identity::at(system.rt(), system_path.as_str()) == wanted {
            return Ok(true);
        }
    }
    Ok(false)
}
