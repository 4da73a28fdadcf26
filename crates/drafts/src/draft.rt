//! What a draft of a torrent holds (BEP 52, "metainfo files").

ghost use Rattle.std.specs.Prelude.{◌≡◌};

use filetree::Refusal;
use hashtree::Hash;
use pieces::PieceLength;
use std::alloc::Global;
use std::collections::BTreeMap;
use std::marker::Model;

/// A file of a draft.
#[derive(Drop)]
pub(crate) struct DraftFile {
    pub(crate) path: Vec<String>,
    pub(crate) length: u64,
    pub(crate) root: Hash,
    pub(crate) cuts: Vec<[u8; 20]>,
    pub(crate) padded: [u8; 20],
}

/// What is kept of a root of files that are not empty: their length, and the piece layer that was
/// added first with it; none if the files are no longer than a piece.
#[derive(Drop)]
pub(crate) struct KeptRoot {
    pub(crate) length: u64,
    pub(crate) layer: Vec<Hash>,
}

/// A torrent that is put together, to which files are added.
///
/// Its files stand in the order of their paths, whatever the order in which they are added. It has
/// room for at most twice as many, and one. Of a file it has room for its components and its
/// digests alone, and of a layer for its hashes alone.
#[derive(Drop)]
pub struct Draft {
    pub(crate) alloc: Global,
    pub(crate) name: String,
    pub(crate) piece_length: PieceLength,
    pub(crate) hybrid: bool,
    pub(crate) files: Vec<DraftFile>,
    pub(crate) roots: BTreeMap<Hash, KeptRoot>,
    /// How many pieces the files have in all.
    pub(crate) pieces: u64,
}

impl Model for Draft {
    ghost use Rattle.std.specs.Prelude.{◌*◌, ◌+◌, ◌≤◌, All, vec_len};
    ghost use Rattle.std.specs.String.{string_bytes};
    ghost use Rattle.std.specs.Vec.{vec_capacity};
    ghost use Rattle.drafts.specs.DraftSeen.{HasOwnRoom, HaveOwnRooms, IsDraftKept, outline};
    ghost use Rattle.drafts.specs.Outline.{Outline};

    ghost Value = { Outline };

    ghost view = { λ d. outline (string_bytes d.name) d.piece_length d.hybrid d.files.items
        d.roots.entries };

    ghost invariant = { λ d. IsDraftKept (string_bytes d.name) d.piece_length d.hybrid d.files.items
        d.roots.entries d.pieces × (vec_capacity d.files ≤ 2 * vec_len d.files + 1)
        × All HasOwnRoom d.files.items × HaveOwnRooms d.roots.entries };
}

impl Draft {
    ghost use Rattle.std.specs.Prelude.{◌≡◌, ◌≢◌, IfOk, IfErr};
    ghost use Rattle.drafts.specs.Outline.{empty_outline};
    ghost use Rattle.pieces.specs.Pieces.{IsPieceLength};

    /// A draft of no files, with this display name, and piece length in bytes.
    ///
    /// # Errors
    ///
    /// `PieceLength` unless the piece length is a power of two from 16,384 to 2^30; `NoMemory` only
    /// if memory was refused.
    pub fn new(alloc: Global, name: &str, piece_length: u64, hybrid: bool) -> Result<Draft, Refusal>
        ensures empty { IfOk result
            (λ d. IsPieceLength piece_length × (d ≡ empty_outline name.now piece_length hybrid)) }
        ensures refused { IfErr result (λ r. r ≢ Refusal.NoMemory
            → (r ≡ Refusal.PieceLength) × (IsPieceLength piece_length → ⊥)) }
        ensures memory { IfErr result
            (λ r. r ≡ Refusal.NoMemory → IsPieceLength piece_length) }
    {
        let Some(piece_length) = PieceLength::new(piece_length) else {
            return Err(Refusal::PieceLength);
        };
        let name = String::from_str(alloc, name)?;
        Ok(Draft {
            alloc,
            name,
            piece_length,
            hybrid,
            files: Vec::new(alloc),
            roots: BTreeMap::new(alloc),
            pieces: 0,
        })
    }
}
