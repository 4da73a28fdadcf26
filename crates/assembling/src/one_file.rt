//! The adding of one file to a draft.
ghost use Rattle.std.specs.Prelude.{◌≡◌, ◌^◌, ◌<◌, ◌≤◌, ℕ, List, IfOk, OnOk, length, map};
ghost use Rattle.std.specs.String.{string_bytes};
ghost use Rattle.assembling.specs.Added.{IsWithListed};
ghost use Rattle.assembling.specs.Adding.{AddsContent, IsFileTooLong, IsRefusal, RefusesAsWhole, RefusesNoWrite};
ghost use Rattle.assembling.specs.Taking.{HasEach, IsOfContent};
ghost use Rattle.part_texts.specs.Divisions.{hashed};
ghost use Rattle.part_texts.specs.Listings.{listed};
ghost use Rattle.pieces.specs.Pieces.{pieces_of};

use crate::rows::FileRows;
use crate::whole::root_of_rows;
use drafts::Draft;
use filetree::Refusal;
use hashtree::{MAX_LENGTH, recall_hashes};
use part_texts::ListedFile;
use pieces::PieceLength;
use std::alloc::{AllocError, Global};

/// Why a file was not added.
#[derive(Drop)]
pub(crate) enum FileFault {
    /// The draft refused it, and not for memory.
    Refused(Refusal),
    /// Memory was refused.
    NoMemory,
}

impl From<Refusal> for FileFault {
    ghost from_gives = { IsRefusal };

    fn from(refusal: Refusal) -> FileFault {
        match refusal {
            Refusal::NoMemory => FileFault::NoMemory,
            _ => FileFault::Refused(refusal),
        }
    }
}

impl From<AllocError> for FileFault {
    ghost use Rattle.assembling.specs.declared.one_file.FileFault.TheVariants.{NoMemory};

    ghost from_gives = { λ _ e. e ≡ NoMemory };

    fn from(_error: AllocError) -> FileFault {
        FileFault::NoMemory
    }
}

/// Adds a file of which all parts say this.
pub(crate) fn add_file(
    alloc: Global,
    draft: &mut Draft,
    file: &ListedFile,
    rows: FileRows,
    piece_length: PieceLength,
    hybrid: bool,
) -> Result<(), FileFault>
    requires piece_length { draft.old.piece_length ≡ piece_length }
    requires hybrid { draft.old.hybrid ≡ hybrid }
    requires each { HasEach hybrid (pieces_of piece_length (hashed file.now.length)) rows }
    ensures hybrid { draft.new.hybrid ≡ draft.old.hybrid }
    ensures piece_length { draft.new.piece_length ≡ draft.old.piece_length }
    ensures added { OnOk result (IsWithListed draft.old draft.new (listed file.now)) }
    ensures short { OnOk result (file.now.length ≤ 2 ^ 46) }
    ensures long { 2 ^ 46 < file.now.length → IsFileTooLong result }
    ensures refused { RefusesAsWhole draft.old (listed file.now) result }
    ensures no_write { RefusesNoWrite result }
    ensures content { (content : List ℕ) → IsOfContent piece_length hybrid content rows
        → length content ≡ file.now.length
        → AddsContent draft.old (listed file.now) content draft.new result }
{
    if file.length > MAX_LENGTH {
        return Err(FileFault::Refused(Refusal::Length));
    }
    let path = components(alloc, &file.path)?;
    let root = root_of_rows(&rows, file.length, piece_length, hybrid);
    recall_hashes(&rows.nodes);
    draft.add(&path, file.length, root, &rows.nodes, &rows.v1)?;
    Ok(())
}

// The components of a path.
fn components<'p>(alloc: Global, path: &'p [String]) -> Result<Vec<&'p str>, AllocError>
    ensures { IfOk result (λ parts. map (λ s. s.now) parts.items ≡ map string_bytes path.now) }
{
    let mut parts = Vec::with_capacity(alloc, path.len())?;
    'parts: for part in path {
        parts.push_reserved(part.as_str());
    }
    Ok(parts)
}
