//! The assembly of a torrent.
ghost use Rattle.std.specs.Prelude.{◌≡◌, ◌<◌, ◌≤◌, IfErr, IfOk, length, map};
ghost use Rattle.assembling.specs.Added.{IsDraftOf};
ghost use Rattle.assembling.specs.Adding.{AddsAll, AreNoWrite, StopsInTurn};
ghost use Rattle.assembling.specs.Behind.{AreLong, behind};
ghost use Rattle.assembling.specs.Outcome.{IsAssembled};
ghost use Rattle.part_texts.specs.Divisions.{total_of};
ghost use Rattle.part_texts.specs.Listings.{inventory, listed};
ghost use Rattle.pieces.specs.Pieces.{IsPieceLength};

use crate::all_rows::rows_of;
use crate::fault::{AssembleFault, unread};
use crate::numbers::{Parts, parts_of};
use crate::one_file::{FileFault, add_file};
use crate::sizes::test_sizes;
use drafts::Draft;
use filetree::Refusal;
use part_texts::{Division, Listing, hashed, read_listing};
use pieces::PieceLength;
use std::alloc::Global;

/// Assembles a draft of the texts of all parts, which come in any order (BEP 52, "pieces root",
/// "piece layers"; for a hybrid BEP 3, "pieces", and BEP 47 too). The files are added in the order
/// of the listing, each with the nodes of all its pieces, the root over these, and the digests of a
/// hybrid's cuts.
///
/// If each text says what is true of the same contents, the draft is that which is gathered of
/// these contents, or a file is refused as such a draft refuses it, and `NoPart` never comes. If
/// they are the texts of all parts, each once, only a file, the piece length or memory is refused.
///
/// # Errors
///
/// The first of these: `NoPart`, `OtherCount`, `OtherFolder` and `Twice` by the fronts, in the
/// order of the texts; `Missing`, of the first part that is not there; `NoPart` of part 1 if the
/// listing is none; `Refused` of the piece length; `NoPart` by the size of a text, in the order of
/// the parts; `Refused` of a file in its turn, as the draft refuses it, and never `Write`.
/// `NoMemory` comes only if memory was refused.
pub fn assemble(alloc: Global, texts: &[&[u8]]) -> Result<Draft, AssembleFault>
    ensures { IsAssembled (map (λ x. x.now) texts.now) result }
{
    let parts = parts_of(alloc, texts)?;
    let place = parts.places[0];
    let listing = match read_listing(alloc, parts.listing) {
        Ok(listing) => listing,
        Err(fault) => return Err(unread(fault, place)),
    };
    let Some(piece_length) = PieceLength::new(listing.piece_length) else {
        return Err(AssembleFault::Refused(Refusal::PieceLength, Vec::new(alloc)));
    };
    let division = Division::of(piece_length, &listing.files, parts.rows.len() as u64);
    test_sizes(&parts, &listing, &division)?;
    add_all(alloc, parts, listing, piece_length, &division)
}

// Adds all files to a draft.
fn add_all(
    alloc: Global,
    parts: Parts<'_>,
    listing: Listing,
    piece_length: PieceLength,
    division: &Division,
) -> Result<Draft, AssembleFault>
    requires parts { division.now.parts ≡ length parts.rows.items }
    requires some { 0 < length parts.rows.items }
    requires piece_length { piece_length ≡ listing.piece_length }
    requires legal { IsPieceLength listing.piece_length }
    requires shared { division.now.piece_length ≡ listing.piece_length }
    requires total { division.now.total ≡ total_of (map listed listing.files.items) }
    requires long { AreLong division.now.piece_length listing.hybrid division.now.total
        division.now.parts 0 (map listed listing.files.items) (behind parts) }
    ensures draft { IfOk result (IsDraftOf (inventory listing)) }
    ensures no_write { IfErr result AreNoWrite }
    ensures reason { IfErr result (StopsInTurn (inventory listing)) }
    ensures gathers { AddsAll (inventory listing) (map (λ x. x.now) parts.entry.rows.items) result }
{
    let mut parts = parts;
    let mut listing = listing;
    let mut draft = match Draft::new(alloc, &listing.name, listing.piece_length, listing.hybrid) {
        Ok(draft) => draft,
        Err(_) => return Err(AssembleFault::NoMemory),
    };
    let mut before: u64 = 0;
    'files: for number in 0..listing.files.len() {
        let file = &listing.files[number];
        let rows = rows_of(
            alloc,
            &mut parts,
            listing.hybrid,
            division,
            before,
            file.length,
        )?;
        before = before.saturating_add(hashed(file.length));
        match add_file(alloc, &mut draft, file, rows, piece_length, listing.hybrid) {
            Ok(()) => {}
            Err(FileFault::Refused(refusal)) => {
                let refused = listing.files.swap_remove(number);
                return Err(AssembleFault::Refused(refusal, refused.path));
            }
            Err(FileFault::NoMemory) => return Err(AssembleFault::NoMemory),
        }
    }
    Ok(draft)
}
