//! The listing of a folder, and of all folders below it.
use crate::choice::{Choice, LeftOut, left_out};
use crate::identity::Identity;
use crate::look::{Found, is_on_its_way, look, regular_length};
use crate::names::{is_inside, names_in};
use crate::paths::{path_below, path_in};
use crate::place::print_left_out;
use crate::system::{Cause, System};
use folders::ShelfFault;
use globs::Glob;
use std::alloc::{AllocError, Global};
use std::io::{self, ErrorKind};
use std::str;

/// What is listed below the folder with this path.
#[derive(Drop)]
pub(crate) struct Listing<'a> {
    pub(crate) system: &'a System,
    pub(crate) dir: &'a str,
    /// The name of the one file that is listed, if it is one alone.
    pub(crate) only: Option<&'a str>,
    /// What these match is left out.
    pub(crate) without: &'a [Glob],
    pub(crate) choice: Choice,
    pub(crate) special: Special,
}

/// What becomes of what is neither a file nor a folder.
#[derive(Clone, Copy)]
pub(crate) enum Special {
    /// It is listed as a file.
    Listed,
    /// It is a fault.
    Refused,
    /// It is left out.
    LeftOut,
    /// It is left out, and that is said.
    Told,
}

impl Listing<'_> {
    /// Lists all files, folder by folder.
    pub(crate) fn walk(&self) -> Result<Walk, ShelfFault> {
        let mut walk = Walk::from_top(self.system.alloc())?;
        if let Some(name) = self.only {
            self.list_only(name, &mut walk)?;
            return Ok(walk);
        }
        for _ in 0..u64::MAX {
            let Some(folder) = walk.folders.pop() else {
                return Ok(walk);
            };
            self.list_folder(folder.as_slice(), &mut walk)?;
        }
        Err(ShelfFault::Device)
    }

    // Lists the file with this name, and nothing else.
    fn list_only(&self, name: &str, walk: &mut Walk) -> Result<(), ShelfFault> {
        let path = path_in(self.system.alloc(), &[], name)?;
        let system_path = path_below(self.system.alloc(), self.dir, path.as_slice())?;
        match regular_length(self.system, system_path.as_str()) {
            Ok(length) => Ok(walk.put_file(path, length)?),
            Err(error) => Err(self.unlisted(&[], error)),
        }
    }

    // Lists one folder.
    fn list_folder(&self, folder: &[String], walk: &mut Walk) -> Result<(), ShelfFault> {
        let mut system_path = path_below(self.system.alloc(), self.dir, folder)?;
        if !system_path.is_empty() {
            system_path.push('/')?;
        }
        let names = match names_in(self.system, system_path.as_str()) {
            Ok(names) => names,
            Err(error) => return Err(self.unlisted(folder, error)),
        };
        for name in names.as_slice().split(|byte| *byte == 0) {
            if is_inside(name) {
                self.list_name(folder, name, walk)?;
            }
        }
        Ok(())
    }

    // Why what has this path, of components below the folder, is not listed.
    fn unlisted(&self, path: &[String], error: io::Error) -> ShelfFault {
        self.system.note(Cause::Error(error));
        if !path.is_empty() {
            if let Ok(place) = path_below(self.system.alloc(), self.dir, path) {
                self.system.note_place(place.into_bytes());
            }
        }
        fault_of_io(error)
    }

    // Lists what has this name in a folder. One that is not UTF-8 is a fault, unless it is left
    // out.
    fn list_name(&self, folder: &[String], name: &[u8], walk: &mut Walk) -> Result<(), ShelfFault> {
        let alloc = self.system.alloc();
        if let Ok(text) = str::from_utf8(name) {
            return self.list_path(path_in(alloc, folder, text)?, walk);
        }
        let text = String::from_utf8_lossy(alloc, name)?;
        let path = path_in(alloc, folder, text.as_str())?;
        if left_out(alloc, self.without, path.as_slice())? == LeftOut::Anything {
            return Ok(());
        }
        self.system.note(Cause::Name);
        self.system.note_place(self.place_of(folder, name)?);
        Err(ShelfFault::Name)
    }

    // The path of what has this name in a folder.
    fn place_of(&self, folder: &[String], name: &[u8]) -> Result<Vec<u8>, AllocError> {
        let mut place = path_below(self.system.alloc(), self.dir, folder)?;
        place.push('/')?;
        let mut bytes = place.into_bytes();
        bytes.extend_from_slice(name)?;
        Ok(bytes)
    }

    // Lists what has this path, unless it is left out.
    fn list_path(&self, path: Vec<String>, walk: &mut Walk) -> Result<(), ShelfFault> {
        let alloc = self.system.alloc();
        let left = left_out(alloc, self.without, path.as_slice())?;
        if left == LeftOut::Anything {
            return Ok(());
        }
        let system_path = path_below(alloc, self.dir, path.as_slice())?;
        match look(self.system, system_path.as_str(), self.choice.follows_links) {
            Ok(Found::File(length)) => Ok(walk.put_file(path, length)?),
            Ok(Found::Folder(_)) if left == LeftOut::Folders => Ok(()),
            Ok(Found::Folder(folder)) => self.list_below(path, folder, walk),
            Ok(Found::Special(length, cause)) => self.list_special(path, length, cause, walk),
            Err(error) => Err(self.unlisted(path.as_slice(), error)),
        }
    }

    // Takes up the folder with this path. One that it is itself in is special.
    fn list_below(
        &self,
        path: Vec<String>,
        folder: Identity,
        walk: &mut Walk,
    ) -> Result<(), ShelfFault> {
        if self.choice.follows_links
            && is_on_its_way(self.system, self.dir, path.as_slice(), folder)?
        {
            return self.list_special(path, 0, Some(Cause::Loop), walk);
        }
        Ok(walk.put_folder(path)?)
    }

    // Takes up what has this path and is neither a file nor a folder, or leaves it out.
    fn list_special(
        &self,
        path: Vec<String>,
        length: u64,
        cause: Option<Cause>,
        walk: &mut Walk,
    ) -> Result<(), ShelfFault> {
        match self.special {
            Special::Listed => walk.put_file(path, length)?,
            Special::LeftOut => {}
            Special::Told => print_left_out(self.system, path.as_slice()),
            Special::Refused => {
                self.system.keep(cause);
                return Err(ShelfFault::Special(path));
            }
        }
        Ok(())
    }
}

// Why a folder was not listed. Out of memory the error has no number, since it is not the system's.
fn fault_of_io(error: io::Error) -> ShelfFault {
    match (error.raw_os_error(), error.kind()) {
        (None, ErrorKind::OutOfMemory) => ShelfFault::NoMemory,
        _ => ShelfFault::Device,
    }
}

/// The files that were found, and the folders that are still to be listed, each by its path.
#[derive(Drop)]
pub(crate) struct Walk {
    pub(crate) files: Vec<Vec<String>>,
    folders: Vec<Vec<String>>,
    /// The lengths of the files in all.
    pub(crate) bytes: u64,
}

impl Walk {
    // Only the folder itself is to be listed.
    fn from_top(alloc: Global) -> Result<Walk, AllocError> {
        let mut folders = Vec::new(alloc);
        folders.push(Vec::new(alloc))?;
        Ok(Walk {
            files: Vec::new(alloc),
            folders,
            bytes: 0,
        })
    }

    // Takes up a folder that is to be listed.
    fn put_folder(&mut self, path: Vec<String>) -> Result<(), AllocError> {
        Ok(self.folders.push(path)?)
    }

    // Takes up a file, or what is listed as one.
    fn put_file(&mut self, path: Vec<String>, length: u64) -> Result<(), AllocError> {
        self.bytes = self.bytes.saturating_add(length);
        Ok(self.files.push(path)?)
    }
}
