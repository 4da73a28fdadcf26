//! The text of what was listed, read.
ghost use Rattle.std.specs.Prelude.{◌≡◌, ◌+◌, ◌^◌, ◌<◌, ◌≤◌, ◌++◌, List, [], ℕ, length, map, IfOk, Ok, Err};
ghost use Rattle.std.specs.List.{flat_map};
ghost use Rattle.std.specs.String.{string_bytes};
ghost use Rattle.part_texts.specs.Listings.{Inventory, Listed, inventory, listed};
ghost use Rattle.part_texts.specs.Readings.{AreFilesOfListing, ArePath, CanBeListed, IsFile, IsRun, IsText, ReadsUnlessNoMemory};
ghost use Rattle.part_texts.specs.Texts.{file_text, listing_text, sized};

use crate::listing::{ListedFile, Listing};
use crate::scan::{flag, number, sized};
use std::alloc::{AllocError, Global};

/// Why the text of what was listed is not read.
#[derive(Clone, Copy, Debug, PartialEq, Eq, Drop)]
pub enum ListingFault {
    /// It is none.
    None,
    /// Memory was refused.
    NoMemory,
}

impl From<AllocError> for ListingFault {
    ghost use Rattle.part_texts.specs.declared.reading.ListingFault.TheVariants.{NoMemory};

    ghost from_gives = { λ _ e. e ≡ NoMemory };

    fn from(_error: AllocError) -> ListingFault {
        ListingFault::NoMemory
    }
}

// What was read, and what stands behind it.
type Front<'t, T> = Result<(T, &'t [u8]), ListingFault>;

/// Reads the text of what was listed, which is all there is. It takes memory for what is there.
pub fn read_listing(alloc: Global, text: &[u8]) -> Result<Listing, ListingFault>
    ensures found { (l : Inventory) → CanBeListed l → text.now ≡ listing_text l
        → ReadsUnlessNoMemory result (λ found. inventory found ≡ l) }
    ensures exact { IfOk result (λ found. CanBeListed (inventory found)
        × (text.now ≡ listing_text (inventory found))) }
{
    let (listing, rest) = read_front(alloc, text)?;
    if rest.is_empty() {
        Ok(listing)
    } else {
        Err(ListingFault::None)
    }
}

// Reads what was listed.
fn read_front(alloc: Global, text: &[u8]) -> Front<'_, Listing>
    ensures found { (l : Inventory) (more : List ℕ) → CanBeListed l
        → text.now ≡ listing_text l ++ more
        → ReadsUnlessNoMemory result (λ p. (inventory p.0 ≡ l) × (p.1.now ≡ more)) }
    ensures exact { IfOk result (λ p. CanBeListed (inventory p.0)
        × (text.now ≡ listing_text (inventory p.0) ++ p.1.now)) }
{
    let Some((piece_length, text)) = number(text) else {
        return Err(ListingFault::None);
    };
    let Some((hybrid, text)) = flag(text) else {
        return Err(ListingFault::None);
    };
    let (name, text) = read_text(alloc, text)?;
    let Some((count, text)) = number(text) else {
        return Err(ListingFault::None);
    };
    let (files, rest) = read_files(alloc, text, count)?;
    let listing = Listing {
        name,
        piece_length,
        hybrid,
        files,
    };
    Ok((listing, rest))
}

// Reads this many files.
fn read_files(alloc: Global, text: &[u8], count: u64) -> Front<'_, Vec<ListedFile>>
    ensures found { (files : List Listed) (more : List ℕ) → AreFilesOfListing files
        → length files ≡ count
        → text.now ≡ flat_map file_text files ++ more → ReadsUnlessNoMemory result
        (λ p. (map listed p.0.items ≡ files) × (p.1.now ≡ more)) }
    ensures exact { IfOk result (λ p. IsRun file_text IsFile text.now count
        (map listed p.0.items) p.1.now) }
{
    let mut rest = text;
    let mut files = Vec::new(alloc);
    'files: for _number in 0..count {
        let (file, behind) = read_file(alloc, rest)?;
        files.push(file).map_err(AllocError::from)?;
        rest = behind;
    }
    Ok((files, rest))
}

// Reads a file.
fn read_file(alloc: Global, text: &[u8]) -> Front<'_, ListedFile>
    ensures found { (f : Listed) (more : List ℕ) → IsFile f → text.now ≡ file_text f ++ more
        → ReadsUnlessNoMemory result (λ p. (listed p.0 ≡ f) × (p.1.now ≡ more)) }
    ensures exact { IfOk result (λ p. IsFile (listed p.0)
        × (text.now ≡ file_text (listed p.0) ++ p.1.now)) }
{
    let Some((length, text)) = number(text) else {
        return Err(ListingFault::None);
    };
    let Some((count, text)) = number(text) else {
        return Err(ListingFault::None);
    };
    let (path, rest) = read_path(alloc, text, count)?;
    Ok((ListedFile { path, length }, rest))
}

// Reads a path of this many components.
fn read_path(alloc: Global, text: &[u8], count: u64) -> Front<'_, Vec<String>>
    ensures found { (path : List (List ℕ)) (more : List ℕ) → ArePath path → length path ≡ count
        → text.now ≡ flat_map sized path ++ more → ReadsUnlessNoMemory result
        (λ p. (map string_bytes p.0.items ≡ path) × (p.1.now ≡ more)) }
    ensures exact { IfOk result (λ p. IsRun sized IsText text.now count
        (map string_bytes p.0.items) p.1.now) }
{
    let mut rest = text;
    let mut path = Vec::new(alloc);
    'parts: for _number in 0..count {
        let (part, behind) = read_text(alloc, rest)?;
        path.push(part).map_err(AllocError::from)?;
        rest = behind;
    }
    Ok((path, rest))
}

// Reads a text in UTF-8.
fn read_text(alloc: Global, text: &[u8]) -> Front<'_, String>
    ensures found { (part more : List ℕ) → IsText part → text.now ≡ sized part ++ more
        → ReadsUnlessNoMemory result (λ p. (string_bytes p.0 ≡ part) × (p.1.now ≡ more)) }
    ensures exact { IfOk result (λ p. IsText (string_bytes p.0)
        × (text.now ≡ sized (string_bytes p.0) ++ p.1.now)) }
{
    let Some((bytes, rest)) = sized(text) else {
        return Err(ListingFault::None);
    };
    match std::str::from_utf8(bytes) {
        Ok(found) => Ok((String::from_str(alloc, found)?, rest)),
        Err(_) => Err(ListingFault::None),
    }
}
