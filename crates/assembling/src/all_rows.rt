//! What all parts say of one file.
ghost use Rattle.std.specs.Prelude.{◌≡◌, ◌<◌, ◌∷◌, ℕ, List, IfOk, length, map};
ghost use Rattle.assembling.specs.Behind.{AreLong, HaveRoom, behind};
ghost use Rattle.assembling.specs.Taking.{HasEach, IsContentTaken, IsHeld};
ghost use Rattle.gathering.specs.Parts.{KnownPaths};
ghost use Rattle.part_texts.specs.Divisions.{capped, hashed};
ghost use Rattle.part_texts.specs.Listings.{Listed};
ghost use Rattle.pieces.specs.Pieces.{IsPieceLength, pieces_of};

use crate::numbers::Parts;
use crate::rows::{FileRows, read_row};
use part_texts::Division;
use pieces::V1File;
use std::alloc::{AllocError, Global};

/// What all parts say of a file of this many bytes that has this many bytes before it: a node for
/// each of its pieces, and in a hybrid a digest of each. Each part has room for what it says.
pub(crate) fn rows_of(
    alloc: Global,
    parts: &mut Parts<'_>,
    hybrid: bool,
    division: &Division,
    before: u64,
    bytes: u64,
) -> Result<FileRows, AllocError>
    requires parts { division.now.parts ≡ length parts.old.rows.items }
    requires some { 0 < length parts.old.rows.items }
    requires legal { IsPieceLength division.now.piece_length }
    requires room { HaveRoom division.now.piece_length hybrid division.now.total division.now.parts
        before bytes (behind parts.old) }
    ensures rows { length parts.new.rows.items ≡ length parts.old.rows.items }
    ensures each { IfOk result (HasEach hybrid
        (pieces_of division.now.piece_length (hashed bytes))) }
    ensures long { (f : Listed) (fs : List Listed) → f.bytes ≡ bytes
        → AreLong division.now.piece_length hybrid division.now.total division.now.parts before
        (f ∷ fs) (behind parts.old) → IfOk result (λ _. AreLong division.now.piece_length hybrid
        division.now.total division.now.parts (capped before (hashed bytes)) fs
        (behind parts.new)) }
    ensures taken { (under : KnownPaths) (f : Listed) (fs : List Listed) (content : List ℕ)
        → f.bytes ≡ bytes → IsHeld under division.now.piece_length hybrid division.now.total before
        f fs content (map (λ x. x.now) parts.old.rows.items)
        → IfOk result
        (λ rows. IsContentTaken under division.now.piece_length hybrid division.now.total
        before f fs content rows (map (λ x. x.now) parts.new.rows.items)) }
{
    let mut rows = FileRows {
        nodes: Vec::new(alloc),
        v1: V1File {
            cuts: Vec::new(alloc),
            padded: [0; 20],
        },
    };
    'parts: for part in 0..parts.rows.len() {
        let count = division.span(part as u64, before, bytes).count();
        parts.rows[part] = read_row(parts.rows[part], count, hybrid, &mut rows)?;
    }
    Ok(rows)
}
