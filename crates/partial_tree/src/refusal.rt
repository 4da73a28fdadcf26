//! Why a message is refused.

use std::error::Error;
use std::fmt;

/// Why hashes are refused. The tests run in the order of the numbers, but `Unasked` comes first, if
/// requests are noted. The first that fails is the answer. A refusal leaves content and marks as
/// they were.
#[derive(Clone, Copy, Debug, PartialEq, Eq)]
pub enum HashRefusal {
    /// No tree has the root.
    UnknownRoot,
    /// The range is none of the tree's, or its length is no power of two from 2 to 8192; for a
    /// whole layer: the layer is above the root.
    BadRange,
    /// Hashes are missing, or the uncles are more than were asked for or lead past the root; for a
    /// whole layer: there is not one hash for each place that covers a part of the file.
    BadCount,
    /// A hash wholly past the file's end is not the one over pads alone.
    BadPad,
    /// The node to which the hashes lead is not known.
    Unanchored,
    /// A given or computed hash differs from a known one.
    Mismatch,
    /// Out of memory: nothing else is wrong, and a place is new.
    NoMemory,
    /// No open ask has these five fields. Only a session that notes its requests answers this.
    Unasked,
}

/// Why a block is refused. The tests run in the order of the numbers, and the first that fails is
/// the answer. A refusal leaves content and marks as they were.
#[derive(Clone, Copy, Debug, PartialEq, Eq)]
pub enum BlockRefusal {
    /// No block of a file lies there.
    BadPlace,
    /// The bytes are not as many as the block has.
    BadSize,
    /// The leaf is not known.
    Unproved,
    /// The digest differs from the leaf.
    BadBlock,
}

/// Why a piece is refused. The tests run in the order of the variants, and the first that fails is
/// the answer. A refusal leaves content and marks as they were.
#[derive(Clone, Copy, Debug, PartialEq, Eq)]
pub enum PieceRefusal {
    /// No piece has the number.
    BadPlace,
    /// The bytes are not as many as the piece has.
    BadSize,
    /// The node that covers the piece is not known.
    Unproved,
    /// Out of memory: a place is new.
    NoMemory,
    /// A hash that follows from the bytes differs from a known one.
    BadPiece,
}

impl HashRefusal {
    ghost use Rattle.std.specs.Prelude.{◌≡◌};
    ghost use Rattle.partial_tree.specs.Names.{hash_refusal_number, hash_refusal_name, hash_refusal_text};

    /// Its number, from 1 to 8.
    pub fn number(self) -> u32
        ensures { result ≡ hash_refusal_number self }
    {
        match self {
            HashRefusal::UnknownRoot => 1,
            HashRefusal::BadRange => 2,
            HashRefusal::BadCount => 3,
            HashRefusal::BadPad => 4,
            HashRefusal::Unanchored => 5,
            HashRefusal::Mismatch => 6,
            HashRefusal::NoMemory => 7,
            HashRefusal::Unasked => 8,
        }
    }

    /// Its name, as it is printed.
    pub fn name(self) -> &'static str
        ensures { result.now ≡ hash_refusal_name self }
    {
        match self {
            HashRefusal::UnknownRoot => "UnknownRoot",
            HashRefusal::BadRange => "BadRange",
            HashRefusal::BadCount => "BadCount",
            HashRefusal::BadPad => "BadPad",
            HashRefusal::Unanchored => "Unanchored",
            HashRefusal::Mismatch => "Mismatch",
            HashRefusal::NoMemory => "NoMemory",
            HashRefusal::Unasked => "Unasked",
        }
    }

    // What is printed of it.
    fn text(self) -> &'static str
        ensures { result.now ≡ hash_refusal_text self }
    {
        match self {
            HashRefusal::UnknownRoot => "no tree of the torrent has this root",
            HashRefusal::BadRange => "the hashes are for no range of the tree",
            HashRefusal::BadCount => "the number of hashes is wrong",
            HashRefusal::BadPad => "a hash past the end of the file is not the one over pads",
            HashRefusal::Unanchored => "the hashes lead to no known node",
            HashRefusal::Mismatch => "a hash differs from a known one",
            HashRefusal::NoMemory => "out of memory",
            HashRefusal::Unasked => "nobody asked for the hashes",
        }
    }
}

impl fmt::Display for HashRefusal {
    ghost use Rattle.std.specs.Prelude.{Some};
    ghost use Rattle.partial_tree.specs.Names.{hash_refusal_text};

    ghost output = { λ refusal. Some (hash_refusal_text refusal) };

    fn fmt<W: fmt::Write>(&self, f: &mut fmt::Formatter<W>) -> fmt::Result {
        f.write_str(self.text())
    }
}

impl Error for HashRefusal {}

impl BlockRefusal {
    ghost use Rattle.std.specs.Prelude.{◌≡◌};
    ghost use Rattle.partial_tree.specs.Names.{block_refusal_number, block_refusal_name, block_refusal_text};

    /// Its number, from 1 to 4.
    pub fn number(self) -> u32
        ensures { result ≡ block_refusal_number self }
    {
        match self {
            BlockRefusal::BadPlace => 1,
            BlockRefusal::BadSize => 2,
            BlockRefusal::Unproved => 3,
            BlockRefusal::BadBlock => 4,
        }
    }

    /// Its name, as it is printed.
    pub fn name(self) -> &'static str
        ensures { result.now ≡ block_refusal_name self }
    {
        match self {
            BlockRefusal::BadPlace => "BadPlace",
            BlockRefusal::BadSize => "BadSize",
            BlockRefusal::Unproved => "Unproved",
            BlockRefusal::BadBlock => "BadBlock",
        }
    }

    // What is printed of it.
    fn text(self) -> &'static str
        ensures { result.now ≡ block_refusal_text self }
    {
        match self {
            BlockRefusal::BadPlace => "there is no block at this place",
            BlockRefusal::BadSize => "the block has another size",
            BlockRefusal::Unproved => "the hash of the block is not known yet",
            BlockRefusal::BadBlock => "the block has another hash",
        }
    }
}

impl fmt::Display for BlockRefusal {
    ghost use Rattle.std.specs.Prelude.{Some};
    ghost use Rattle.partial_tree.specs.Names.{block_refusal_text};

    ghost output = { λ refusal. Some (block_refusal_text refusal) };

    fn fmt<W: fmt::Write>(&self, f: &mut fmt::Formatter<W>) -> fmt::Result {
        f.write_str(self.text())
    }
}

impl Error for BlockRefusal {}

impl PieceRefusal {
    ghost use Rattle.std.specs.Prelude.{◌≡◌};
    ghost use Rattle.partial_tree.specs.Names.{piece_refusal_text};

    // What is printed of it.
    fn text(self) -> &'static str
        ensures { result.now ≡ piece_refusal_text self }
    {
        match self {
            PieceRefusal::BadPlace => "there is no piece of this number",
            PieceRefusal::BadSize => "the piece has another size",
            PieceRefusal::Unproved => "the hash of the piece is not known yet",
            PieceRefusal::NoMemory => "out of memory",
            PieceRefusal::BadPiece => "the piece has another hash",
        }
    }
}

impl fmt::Display for PieceRefusal {
    ghost use Rattle.std.specs.Prelude.{Some};
    ghost use Rattle.partial_tree.specs.Names.{piece_refusal_text};

    ghost output = { λ refusal. Some (piece_refusal_text refusal) };

    fn fmt<W: fmt::Write>(&self, f: &mut fmt::Formatter<W>) -> fmt::Result {
        f.write_str(self.text())
    }
}

impl Error for PieceRefusal {}
