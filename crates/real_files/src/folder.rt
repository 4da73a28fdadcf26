//! A folder of the file system as a shelf.
ghost use Rattle.std.specs.Prelude.{◌≡◌, None, ⊤};
ghost use Rattle.benc.specs.Device.{one_more};

use crate::choice::Choice;
use crate::fault::print_reason_of;
use crate::identity::Identity;
use crate::listing::{Listing, Special};
use crate::noted::Noted;
use crate::offsets::Offsets;
use crate::paths::{folder_and_name, path_below};
use crate::progress::{Counted, Progress};
use crate::system::{Cause, System};
use benc::{DeviceFault, FromRead, Source};
use folders::{SeekShelf, Shelf, ShelfFault};
use globs::Glob;
use opening::Torrent;
use std::alloc::AllocError;
use std::fs::{self, File};
use std::io::{self, ErrorKind, Seek, SeekFrom};

/// The files below a folder. Opening follows symlinks, and fails at what is then no regular file.
///
/// It looks at what stands there before it opens it, so that it waits at no named pipe and reads no
/// device. One that takes a file's place between the look and the opening is opened. Each read of a
/// file is noted as progress.
#[derive(Drop)]
pub struct Folder<'a> {
    system: &'a System,
    dir: &'a str,
    // The one file that is listed, if it is one alone.
    only: Option<&'a str>,
    without: &'a [Glob],
    choice: Choice,
    // Whether what it left out was said.
    has_told: bool,
    faults: u64,
    // None if the files are read one behind the other.
    offsets: Option<Offsets<'a>>,
    // The listed files that were opened. It has room for all that were listed.
    opened: Vec<Identity>,
    // Whether all files that are listed will be read.
    reads_all: bool,
    progress: &'a Progress,
}

// A file that is read.
type Reading<'a> = Counted<'a, FromRead<Noted<'a, File>>, String>;

impl<'a> Folder<'a> {
    /// The folder with this path, for files that are listed. It need not be there.
    pub fn new(system: &'a System, dir: &'a str, progress: &'a Progress) -> Folder<'a>
        ensures dir { result.dir.now ≡ dir.entry.now }
        ensures faults { result.faults ≡ 0 }
    {
        Folder {
            system,
            dir,
            only: None,
            without: &[],
            choice: Choice::strict(),
            has_told: false,
            faults: 0,
            offsets: None,
            opened: Vec::new(system.alloc()),
            reads_all: true,
            progress,
        }
    }

    /// The folder with this path, for the files of a torrent. It need not be there.
    pub fn with_torrent(
        system: &'a System,
        dir: &'a str,
        torrent: &'a Torrent<'a>,
        progress: &'a Progress,
    ) -> Folder<'a>
        ensures dir { result.dir.now ≡ dir.entry.now }
        ensures faults { result.faults ≡ 0 }
    {
        Folder {
            system,
            dir,
            only: None,
            without: &[],
            choice: Choice::strict(),
            has_told: false,
            faults: 0,
            offsets: Some(Offsets::new(torrent)),
            opened: Vec::new(system.alloc()),
            reads_all: true,
            progress,
        }
    }

    /// The folder that holds the file with this path, of which that file alone is listed.
    pub fn of_file(system: &'a System, path: &'a str, progress: &'a Progress) -> Folder<'a>
        ensures { result.faults ≡ 0 }
    {
        let (dir, name) = folder_and_name(path);
        let mut folder = Folder::new(system, dir, progress);
        folder.only = Some(name);
        folder
    }

    /// What these globs match is neither opened nor listed nor looked at, so it is no fault,
    /// whatever it is. A name that is not UTF-8 has U+FFFD for them in place of what is none.
    pub fn without(mut self, globs: &'a [Glob]) -> Folder<'a>
        ensures dir { result.dir.now ≡ self.entry.dir.now }
        ensures faults { result.faults ≡ self.entry.faults }
    {
        self.without = globs;
        self
    }

    /// Links, and what is special, are treated so.
    pub fn choosing(mut self, choice: Choice) -> Folder<'a>
        ensures dir { result.dir.now ≡ self.entry.dir.now }
        ensures faults { result.faults ≡ self.entry.faults }
    {
        self.choice = choice;
        self
    }

    /// Some files that are listed will not be read, so it is not known how many bytes will be.
    pub fn read_in_part(mut self) -> Folder<'a>
        ensures dir { result.dir.now ≡ self.entry.dir.now }
        ensures faults { result.faults ≡ self.entry.faults }
    {
        self.reads_all = false;
        self
    }

    /// Whether what has this path is one of the listed files that were opened.
    pub fn has_opened(&self, path: &str) -> bool {
        match Identity::at(self.system.rt(), path) {
            Some(file) => self.opened.as_slice().contains(&file),
            None => false,
        }
    }

    /// Whether what has this path is one of the torrent's files here. `Err` is out of memory.
    pub fn holds(&self, torrent: &Torrent<'_>, path: &str) -> Result<bool, AllocError> {
        let wanted = Identity::at(self.system.rt(), path);
        if wanted.is_none() || self.dir.is_empty() {
            return Ok(false);
        }
        'files: for file in torrent.files() {
            if self.identity(file.path.parts().as_slice())? == wanted {
                return Ok(true);
            }
        }
        Ok(false)
    }

    // Which file has these path components here.
    fn identity(&self, path: &[&str]) -> Result<Option<Identity>, AllocError> {
        let system_path = path_below(self.system.alloc(), self.dir, path)?;
        Ok(Identity::at(self.system.rt(), system_path.as_str()))
    }

    fn fault(&mut self) -> DeviceFault
        ensures { self.new.faults ≡ one_more self.old.faults }
    {
        self.faults = self.faults.wrapping_add(1);
        DeviceFault
    }

    // Opens the file with these path components, and gives its path with it, or answers that the
    // system finds no such name. An empty folder name is none.
    fn open_file(&self, path: &[&str]) -> io::Result<Option<(File, String)>> {
        if self.dir.is_empty() {
            return Ok(None);
        }
        let system_path = path_below(self.system.alloc(), self.dir, path)?;
        match self.open_regular(system_path.as_str()) {
            Ok(file) => Ok(Some((file, system_path))),
            Err(error) => self.not_opened(error),
        }
    }

    // The same, to be read from this byte on.
    fn open_file_at(&self, path: &[&str], offset: u64) -> io::Result<Option<(File, String)>> {
        let Some((mut file, system_path)) = self.open_file(path)? else {
            return Ok(None);
        };
        if let Err(error) = file.seek(SeekFrom::Start(offset)) {
            self.system.note(Cause::Error(error));
            return Err(error);
        }
        Ok(Some((file, system_path)))
    }

    // What an opening that failed answers: an error, or nothing if the system finds no such name.
    fn not_opened<T>(&self, error: io::Error) -> io::Result<Option<T>> {
        self.system.note(Cause::Error(error));
        if error.kind() == ErrorKind::NotFound {
            Ok(None)
        } else {
            Err(error)
        }
    }

    // Opens a regular file, and fails without opening if it is of another kind.
    fn open_regular(&self, system_path: &str) -> io::Result<File> {
        if !fs::metadata(self.system.rt(), system_path)?.is_file() {
            return Err(io::Error::from(ErrorKind::InvalidInput));
        }
        File::open(self.system.rt(), system_path)
    }

    // What becomes of what is neither a file nor a folder. It is said once.
    fn special(&mut self) -> Special
        ensures { self.new.faults ≡ self.old.faults }
    {
        let has_told = self.has_told;
        self.has_told = true;
        match (self.choice.skips_special, has_told) {
            (false, _) => Special::Refused,
            (true, false) => Special::Told,
            (true, true) => Special::LeftOut,
        }
    }

    // Keeps which file was opened, if it was listed.
    fn keep(&mut self, file: &File)
        ensures { self.new.faults ≡ self.old.faults }
    {
        if self.opened.len() == self.opened.capacity() {
            return;
        }
        if let Ok(found) = file.metadata() {
            if let Some(identity) = Identity::of(&found) {
                self.opened.push_reserved(identity);
            }
        }
    }

    // Says why a file of a torrent was not opened, where reasons are asked for.
    fn explain_unopened(&self, path: &[&str]) {
        if let Ok(text) = path_below(self.system.alloc(), self.dir, path) {
            self.explain(text.as_str());
        }
    }

    // Says why the file of a torrent with this path was not read, where reasons are asked for.
    fn explain(&self, path: &str) {
        if self.offsets.is_some() {
            self.progress.clear();
            print_reason_of(self.system, path);
        }
    }

    // What reads a file, this many bytes of all behind the first one.
    fn source(&self, file: File, name: String, before: u64) -> Reading<'a>
        ensures { result.source.faults ≡ 0 }
    {
        let source = FromRead::new(Noted::new(file, self.system));
        Counted::new(source, name, before, self.progress)
    }

    // How many bytes stand before the file with this path.
    fn bytes_before(&mut self, path: &[&str]) -> u64
        ensures { self.new.faults ≡ self.old.faults }
    {
        match &mut self.offsets {
            Some(offsets) => offsets.before(path),
            None => self.progress.read(),
        }
    }
}

impl<'a> Shelf for Folder<'a> {
    type File = Reading<'a>;

    // What the file system holds is not known.
    ghost contents = { λ _. record { under = λ _. None; listing = None } };

    ghost lists = { λ _ _ _. ⊤ };

    ghost opens = { λ _ _ _ _. ⊤ };

    ghost closes = { λ _ _ _. ⊤ };

    ghost faults = { λ s. s.faults };

    fn list(&mut self) -> Result<Vec<Vec<String>>, ShelfFault> {
        let listing = Listing {
            system: self.system,
            dir: self.dir,
            only: self.only,
            without: self.without,
            choice: self.choice,
            special: self.special(),
        };
        let walk = listing.walk();
        if matches!(walk, Err(ShelfFault::Device)) {
            self.fault();
        }
        let walk = walk?;
        if self.reads_all {
            self.progress.expect(walk.bytes);
        }
        self.opened = Vec::with_capacity(self.system.alloc(), walk.files.len())?;
        Ok(walk.files)
    }

    fn open(&mut self, path: &[&str]) -> Result<Option<Self::File>, DeviceFault> {
        let before = self.bytes_before(path);
        match self.open_file(path) {
            Ok(None) => Ok(None),
            Ok(Some((file, name))) => {
                self.keep(&file);
                Ok(Some(self.source(file, name, before)))
            }
            Err(_) => {
                self.explain_unopened(path);
                Err(self.fault())
            }
        }
    }

    fn close(&mut self, file: Self::File) {
        let failures = file.failures();
        if failures > 0 {
            self.explain(file.name());
        }
        self.faults = self.faults.wrapping_add(failures);
    }

    fn failures(&self) -> u64 {
        self.faults
    }
}

impl SeekShelf for Folder<'_> {
    ghost opens_at = { λ _ _ _ _ _. ⊤ };

    fn open_at(&mut self, path: &[&str], offset: u64) -> Result<Option<Self::File>, DeviceFault> {
        let Ok(found) = self.open_file_at(path, offset) else {
            self.explain_unopened(path);
            return Err(self.fault());
        };
        match found {
            Some((file, name)) => Ok(Some(self.source(file, name, self.progress.read()))),
            None => Ok(None),
        }
    }
}
