//! How much each part is to say.
ghost use Rattle.std.specs.Prelude.{◌≡◌, ◌-◌, ◌^◌, ◌<◌, IfErr, IfOk, length, map, min};
ghost use Rattle.assembling.specs.Behind.{AreLong, NamesFirstOther, behind};
ghost use Rattle.assembling.specs.Sizes.{row_size, rows_size};
ghost use Rattle.part_texts.specs.Listings.{listed};

use crate::fault::AssembleFault;
use crate::numbers::Parts;
use part_texts::{Division, Listing, hashed};

/// Tests that each part says as much as it is to, in their order.
pub(crate) fn test_sizes(
    parts: &Parts<'_>,
    listing: &Listing,
    division: &Division,
) -> Result<(), AssembleFault>
    requires places { length parts.now.places.items ≡ length parts.now.rows.items }
    requires parts { division.now.parts ≡ length parts.now.rows.items }
    ensures sizes { IfOk result (λ _. AreLong division.now.piece_length listing.now.hybrid
        division.now.total division.now.parts 0 (map listed listing.now.files.items)
        (behind parts.now)) }
    ensures reason { IfErr result (NamesFirstOther division.now.piece_length listing.now.hybrid
        division.now.total division.now.parts (map listed listing.now.files.items) parts.now) }
{
    'parts: for part in 0..parts.rows.len() {
        let size = size_of(listing, division, part as u64);
        if parts.rows[part].len() as u64 != size {
            return Err(AssembleFault::NoPart(parts.places[part]));
        }
    }
    Ok(())
}

// How many bytes a part says of all files, or the largest number of 64 bits if that is less.
fn size_of(listing: &Listing, division: &Division, part: u64) -> u64
    requires { part < division.now.parts }
    ensures { result ≡ min (rows_size division.now.piece_length listing.now.hybrid
        division.now.total division.now.parts part 0 (map listed listing.now.files.items))
        (2 ^ 64 - 1) }
{
    let mut before: u64 = 0;
    let mut size: u64 = 0;
    'files: for file in &listing.files {
        let count = division.span(part, before, file.length).count();
        size = size.saturating_add(size_of_row(count, listing.hybrid));
        before = before.saturating_add(hashed(file.length));
    }
    size
}

// How many bytes a part says of this many pieces of a file, or the largest number of 64 bits if
// that is less.
fn size_of_row(count: u64, hybrid: bool) -> u64
    ensures { result ≡ min (row_size hybrid count) (2 ^ 64 - 1) }
{
    match (count, hybrid) {
        (0, _) => 0,
        (_, false) => count.saturating_mul(32),
        (_, true) => count.saturating_mul(52).saturating_add(20),
    }
}
