//! Why a torrent is refused.

ghost use Rattle.std.specs.Prelude.{◌≡◌};

use benc::Fault;
use std::alloc::{AllocError, AllocFailed};
use std::error::Error;
use std::fmt;

/// A key of a torrent file, which a refusal is about.
#[derive(Clone, Copy, Debug, PartialEq, Eq)]
pub enum Key {
    /// No key: the file's top value itself.
    Top,
    /// `info`, of the top value.
    Info,
    /// `meta version`, of the info dictionary.
    MetaVersion,
    /// `file tree`, of the info dictionary.
    FileTree,
    /// `name`, of the info dictionary.
    Name,
    /// `piece length`, of the info dictionary.
    PieceLength,
    /// `piece layers`, of the top value.
    PieceLayers,
}

impl Key {
    ghost use Rattle.filetree.specs.Names.{key_spelling};

    /// The key as a torrent file spells it, and `top` for the top value.
    pub fn text(self) -> &'static str
        ensures { result.now ≡ key_spelling self }
    {
        match self {
            Key::Top => "top",
            Key::Info => "info",
            Key::MetaVersion => "meta version",
            Key::FileTree => "file tree",
            Key::Name => "name",
            Key::PieceLength => "piece length",
            Key::PieceLayers => "piece layers",
        }
    }
}

/// Why bytes are no torrent, or why a draft takes no file.
///
/// The numbers are only names: the tests of opening have another order, in which `Missing` and
/// `WrongType` are tested both before `Version` and after it.
#[derive(Clone, Copy, Debug, PartialEq, Eq)]
pub enum Refusal {
    /// The torrent file has more than 67,108,864 bytes.
    TooLarge,
    /// The bytes spell no value: the first fault.
    NotBencode(Fault),
    /// This key is absent.
    Missing(Key),
    /// The value under this key is of another kind; of `name`, also a byte string that is not
    /// UTF-8.
    WrongType(Key),
    /// `meta version` is not 2.
    Version,
    /// The piece length is not a power of two from 16,384 to 2^30.
    PieceLength,
    /// The file tree has the empty key at its root; or in it the value of a component is not a
    /// dictionary, an empty key has a sibling, or its value is not a dictionary.
    Shape,
    /// A component of a path is `.` or `..`, holds `/` or a zero byte, or is not UTF-8. Of a draft
    /// also: there is no component, there are more than 124, or one is empty.
    Path,
    /// A file is a symlink.
    Symlink,
    /// A file's length is absent, no integer, below 0 or above 2^46.
    Length,
    /// The `pieces root` of a file that is not empty is absent, not a byte string, or not 32 bytes
    /// long.
    Root,
    /// Two files have one root and different lengths.
    RootReused,
    /// There is no file.
    NoFiles,
    /// The files have more than 2^32 - 1 pieces in all.
    TooManyPieces,
    /// A file longer than the piece length has no entry in `piece layers`.
    LayerMissing,
    /// Such an entry is not a byte string, or not one hash for each piece.
    LayerSize,
    /// The tree over such an entry has another root.
    LayerMismatch,
    /// The version 1 list is malformed, or differs from the file tree.
    HybridFiles,
    /// A file that is not empty does not start at its first piece in the version 1 stream, or too
    /// much follows the last file.
    HybridAlign,
    /// `pieces` has not one SHA-1 digest for each cut of the version 1 stream.
    HybridPieces,
    /// Memory was refused.
    NoMemory,
    /// The path is there already, or one of two paths is a prefix of the other. It is an answer of
    /// drafts alone.
    PathClash,
    /// The sink failed. It is an answer of drafts alone.
    Write,
}

impl Refusal {
    ghost use Rattle.filetree.specs.Names.{refusal_name, refusal_number};

    /// The number under which it is printed, from 1 to 23.
    pub fn number(&self) -> u8
        ensures { result ≡ refusal_number self.now }
    {
        match self {
            Refusal::TooLarge => 1,
            Refusal::NotBencode(_) => 2,
            Refusal::Missing(_) => 3,
            Refusal::WrongType(_) => 4,
            Refusal::Version => 5,
            Refusal::PieceLength => 6,
            Refusal::Shape => 7,
            Refusal::Path => 8,
            Refusal::Symlink => 9,
            Refusal::Length => 10,
            Refusal::Root => 11,
            Refusal::RootReused => 12,
            Refusal::NoFiles => 13,
            Refusal::TooManyPieces => 14,
            Refusal::LayerMissing => 15,
            Refusal::LayerSize => 16,
            Refusal::LayerMismatch => 17,
            Refusal::HybridFiles => 18,
            Refusal::HybridAlign => 19,
            Refusal::HybridPieces => 20,
            Refusal::NoMemory => 21,
            Refusal::PathClash => 22,
            Refusal::Write => 23,
        }
    }

    /// The name under which it is printed.
    pub fn name(&self) -> &'static str
        ensures { result.now ≡ refusal_name self.now }
    {
        match self {
            Refusal::TooLarge => "TooLarge",
            Refusal::NotBencode(_) => "NotBencode",
            Refusal::Missing(_) => "Missing",
            Refusal::WrongType(_) => "WrongType",
            Refusal::Version => "Version",
            Refusal::PieceLength => "PieceLength",
            Refusal::Shape => "Shape",
            Refusal::Path => "Path",
            Refusal::Symlink => "Symlink",
            Refusal::Length => "Length",
            Refusal::Root => "Root",
            Refusal::RootReused => "RootReused",
            Refusal::NoFiles => "NoFiles",
            Refusal::TooManyPieces => "TooManyPieces",
            Refusal::LayerMissing => "LayerMissing",
            Refusal::LayerSize => "LayerSize",
            Refusal::LayerMismatch => "LayerMismatch",
            Refusal::HybridFiles => "HybridFiles",
            Refusal::HybridAlign => "HybridAlign",
            Refusal::HybridPieces => "HybridPieces",
            Refusal::NoMemory => "NoMemory",
            Refusal::PathClash => "PathClash",
            Refusal::Write => "Write",
        }
    }
}

/// The number and the name, and what a fault of bencoding or a key adds, as it is printed.
impl fmt::Display for Refusal {
    ghost use Rattle.std.specs.Prelude.{Some};
    ghost use Rattle.filetree.specs.Names.{refusal_words};

    ghost output = { λ refusal. Some (refusal_words refusal) };

    fn fmt<W: fmt::Write>(&self, f: &mut fmt::Formatter<W>) -> fmt::Result {
        write!(f, "{} {}", self.number(), self.name())?;
        match self {
            Refusal::NotBencode(fault) => write!(f, " {} {}", fault.kind.name(), fault.offset),
            Refusal::Missing(key) | Refusal::WrongType(key) => write!(f, " {}", key.text()),
            _ => Ok(()),
        }
    }
}

impl Error for Refusal {}

impl From<AllocError> for Refusal {
    ghost use Rattle.filetree.specs.declared.refusal.Refusal.TheVariants.{NoMemory};

    ghost from_gives = { λ _ r. r ≡ NoMemory };

    fn from(_error: AllocError) -> Refusal {
        Refusal::NoMemory
    }
}

impl<T: Drop> From<AllocFailed<T>> for Refusal {
    ghost use Rattle.filetree.specs.declared.refusal.Refusal.TheVariants.{NoMemory};

    ghost from_gives = { λ _ r. r ≡ NoMemory };

    fn from(_error: AllocFailed<T>) -> Refusal {
        Refusal::NoMemory
    }
}
