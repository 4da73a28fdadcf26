//! The text of a part up to what was hashed.
ghost use Rattle.std.specs.Prelude.{◌≡◌, ◌+◌, ◌^◌, ◌<◌, ◌++◌, List, ℕ, length, map, IfOk, OnOk};
ghost use Rattle.std.specs.List.{flat_map};
ghost use Rattle.std.specs.String.{string_bytes};
ghost use Rattle.part_texts.specs.Listings.{inventory, listed};
ghost use Rattle.part_texts.specs.Readings.{AreFilesOfListing, ArePath, CanBeListed, IsText};
ghost use Rattle.part_texts.specs.Texts.{counted_path_text, file_text, head_text, listing_text, number_text, sized};

use crate::listing::{ListedFile, Listing};
use std::alloc::{AllocError, Global};

/// The first line of a part.
pub(crate) const FIRST_LINE: &[u8] = b"btcheck part of a torrent 1\n";

/// The text of this part, counted from 0, of this many, up to what was hashed. Condition: there is
/// such a part.
pub fn write_head(
    alloc: Global,
    listing: &Listing,
    part: u64,
    parts: u64,
) -> Result<Vec<u8>, AllocError>
    requires { part < parts }
    ensures text { IfOk result (λ text.
        text.items ≡ head_text part parts (listing_text (inventory listing.now))) }
    ensures listed { IfOk result (λ _. CanBeListed (inventory listing.now)) }
    ensures short { IfOk result (λ _. length (listing_text (inventory listing.now)) < 2 ^ 64) }
{
    let mut listed = Vec::new(alloc);
    if let Err(error) = put_listing(&mut listed, listing) {
        return Err(error);
    }
    let mut text = Vec::new(alloc);
    if let Err(error) = text.extend_from_slice(FIRST_LINE) {
        return Err(error);
    }
    if let Err(error) = put_number(&mut text, part + 1) {
        return Err(error);
    }
    if let Err(error) = put_number(&mut text, parts) {
        return Err(error);
    }
    if let Err(error) = put_sized(&mut text, &listed) {
        return Err(error);
    }
    Ok(text)
}

// Puts what was listed behind a text.
fn put_listing(text: &mut Vec<u8>, listing: &Listing) -> Result<(), AllocError>
    ensures put { OnOk result
        (text.new.items ≡ text.old.items ++ listing_text (inventory listing.now)) }
    ensures can { OnOk result (CanBeListed (inventory listing.now)) }
{
    if let Err(error) = put_number(text, listing.piece_length) {
        return Err(error);
    }
    if let Err(error) = put_number(text, if listing.hybrid { 1 } else { 0 }) {
        return Err(error);
    }
    if let Err(error) = put_text(text, listing.name.as_str()) {
        return Err(error);
    }
    if let Err(error) = put_number(text, listing.files.len() as u64) {
        return Err(error);
    }
    put_files(text, &listing.files)
}

// Puts some files behind a text.
fn put_files(text: &mut Vec<u8>, files: &[ListedFile]) -> Result<(), AllocError>
    ensures put { OnOk result
        (text.new.items ≡ text.old.items ++ flat_map file_text (map listed files.now)) }
    ensures can { OnOk result (AreFilesOfListing (map listed files.now)) }
{
    'files: for file in files {
        if let Err(error) = put_number(text, file.length) {
            return Err(error);
        }
        if let Err(error) = put_path(text, &file.path) {
            return Err(error);
        }
    }
    Ok(())
}

// Puts a path behind a text.
fn put_path(text: &mut Vec<u8>, path: &[String]) -> Result<(), AllocError>
    ensures put { OnOk result
        (text.new.items ≡ text.old.items ++ counted_path_text (map string_bytes path.now)) }
    ensures can { OnOk result (ArePath (map string_bytes path.now)) }
{
    if let Err(error) = put_number(text, path.len() as u64) {
        return Err(error);
    }
    'parts: for part in path {
        if let Err(error) = put_text(text, part.as_str()) {
            return Err(error);
        }
    }
    Ok(())
}

// Puts a text behind the number of its bytes behind another.
fn put_text(text: &mut Vec<u8>, part: &str) -> Result<(), AllocError>
    ensures put { OnOk result (text.new.items ≡ text.old.items ++ sized part.now) }
    ensures can { IsText part.now }
{
    put_sized(text, part.as_bytes())
}

// Puts bytes behind their number behind a text.
fn put_sized(text: &mut Vec<u8>, bytes: &[u8]) -> Result<(), AllocError>
    ensures { OnOk result (text.new.items ≡ text.old.items ++ sized bytes.now) }
{
    if let Err(error) = put_number(text, bytes.len() as u64) {
        return Err(error);
    }
    text.extend_from_slice(bytes)
}

// Puts a number behind a text.
#[tactic(auto, unfolding(crate::specs::Texts::number_text))]
fn put_number(text: &mut Vec<u8>, number: u64) -> Result<(), AllocError>
    ensures { OnOk result (text.new.items ≡ text.old.items ++ number_text number) }
{
    text.extend_from_slice(&number.to_be_bytes())
}
