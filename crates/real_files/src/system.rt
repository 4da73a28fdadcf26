//! The system that a command runs on, and why its last call that failed did so.
ghost use Rattle.std.specs.Prelude.{◌≡◌, IfErr};

use printing::Fault;
use std::alloc::Global;
use std::cell::Cell;
use std::fmt;
use std::fs::File;
use std::io::{self, ErrorKind};

/// The system that a command runs on. It keeps why the last call that failed did so, and where.
#[derive(Drop)]
pub struct System {
    rt: HostRuntime,
    cause: Cell<Option<Cause>>,
    place: Cell<Option<Vec<u8>>>,
    shows_reasons: Cell<bool>,
}

/// Why something could not be read or written.
#[derive(Clone, Copy)]
pub enum Cause {
    /// The system said this.
    Error(io::Error),
    /// It is to be written, and is read too.
    IsInput,
    /// It is a name that is not UTF-8.
    Name,
    /// It leads to a folder that it is in.
    Loop,
}

impl System {
    /// The system of this program. No call has failed yet.
    pub fn new(rt: &HostRuntime) -> System {
        System {
            rt: *rt,
            cause: Cell::new(None),
            place: Cell::new(None),
            shows_reasons: Cell::new(false),
        }
    }

    /// The system itself.
    pub fn rt(&self) -> &HostRuntime {
        &self.rt
    }

    /// Where memory comes from.
    pub fn alloc(&self) -> Global {
        self.rt.alloc()
    }

    /// Why the last call that failed did so, if one did.
    pub fn cause(&self) -> Option<Cause> {
        self.cause.get()
    }

    /// Keeps why a call failed.
    pub fn note(&self, cause: Cause) {
        self.keep(Some(cause));
    }

    /// Keeps why something failed, or that no call of the system did.
    pub(crate) fn keep(&self, cause: Option<Cause>) {
        self.cause.set(cause);
        self.place.set(None);
    }

    /// Keeps the path at which the call failed whose cause was kept last.
    pub(crate) fn note_place(&self, path: Vec<u8>) {
        self.place.set(Some(path));
    }

    /// The path at which the last call that failed did so, if it was kept. From then on it is not.
    pub(crate) fn take_place(&self) -> Option<Vec<u8>> {
        self.place.replace(None)
    }

    /// Whether reasons are printed, whatever standard error is.
    pub fn shows_reasons(&self) -> bool {
        self.shows_reasons.get()
    }

    /// From now on reasons are printed, whatever standard error is.
    pub fn show_reasons(&self) {
        self.shows_reasons.set(true);
    }

    /// Opens the file with this path to read it. The fault is that this path cannot be read.
    pub fn open<'a>(&self, path: &'a str) -> Result<File, Fault<'a>>
        ensures { IfErr result (λ f. f ≡ Fault.Read path.entry) }
    {
        match File::open(&self.rt, path) {
            Ok(file) => Ok(file),
            Err(error) => {
                self.note(Cause::Error(error));
                Err(Fault::Read(path))
            }
        }
    }
}

impl fmt::Display for Cause {
    fn fmt<W: fmt::Write>(&self, f: &mut fmt::Formatter<W>) -> fmt::Result {
        match self {
            Cause::IsInput => f.write_str("it is an input"),
            Cause::Name => f.write_str("the name is not UTF-8"),
            Cause::Loop => f.write_str("it leads to a folder that it is in"),
            Cause::Error(error) => match name_of(error.kind()) {
                Some(text) => f.write_str(text),
                None => write!(f, "{error}"),
            },
        }
    }
}

// What a kind of error is called here, of those that users meet.
fn name_of(kind: ErrorKind) -> Option<&'static str> {
    match kind {
        ErrorKind::NotFound => Some("no such file or folder"),
        ErrorKind::AlreadyExists => Some("it is there already"),
        ErrorKind::PermissionDenied => Some("permission denied"),
        ErrorKind::IsADirectory => Some("it is a folder"),
        ErrorKind::NotADirectory => Some("a part of the path is no folder"),
        ErrorKind::StorageFull => Some("the disk is full"),
        ErrorKind::QuotaExceeded => Some("the quota is used up"),
        ErrorKind::FileTooLarge => Some("the file would be too large"),
        ErrorKind::ReadOnlyFilesystem => Some("the disk is read-only"),
        ErrorKind::BrokenPipe => Some("nothing reads it any more"),
        ErrorKind::InvalidInput => Some("it is no regular file"),
        _ => None,
    }
}
