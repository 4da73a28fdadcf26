//! Which files are listed.
use globs::{Glob, is_folder_left_out, is_left_out};
use std::alloc::{AllocError, Global};

/// What becomes of the symbolic links in a folder, and of what is special there: neither a file nor
/// a folder.
#[derive(Clone, Copy, Drop)]
pub struct Choice {
    /// Whether a symbolic link is what it leads to. One that leads nowhere, or to a folder that it
    /// is in, is special.
    pub follows_links: bool,
    /// Whether what is special is left out, which is said on standard error. Else it is a fault.
    pub skips_special: bool,
}

impl Choice {
    /// All files; links and what else is special are faults.
    pub(crate) fn strict() -> Choice {
        Choice {
            follows_links: false,
            skips_special: false,
        }
    }
}

/// What is left out of what may have a path.
#[derive(Clone, Copy, PartialEq, Eq)]
pub(crate) enum LeftOut {
    /// Whatever has it is listed.
    Nothing,
    /// A folder is left out, with all that is below it.
    Folders,
    /// Whatever has it is left out.
    Anything,
}

/// What these globs leave out of what may have this path.
pub(crate) fn left_out(
    alloc: Global,
    globs: &[Glob],
    path: &[String],
) -> Result<LeftOut, AllocError> {
    let mut row = Vec::new(alloc);
    if globs.is_empty() || !is_folder_left_out(alloc, globs, &mut row, path)? {
        return Ok(LeftOut::Nothing);
    }
    if is_left_out(alloc, globs, &mut row, path)? {
        Ok(LeftOut::Anything)
    } else {
        Ok(LeftOut::Folders)
    }
}
