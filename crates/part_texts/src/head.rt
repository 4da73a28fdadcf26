//! The front of a part's text, read.
ghost use Rattle.std.specs.Prelude.{◌≡◌, ◌+◌, ◌^◌, ◌<◌, ◌++◌, List, ℕ, length, IfSome, IsSomeAnd};
ghost use Rattle.part_texts.specs.Texts.{head_text};

use crate::scan::{number, sized};
use crate::writing::FIRST_LINE;

/// What stands before what was hashed, and that.
#[derive(Clone, Copy)]
pub struct Head<'t> {
    /// The number of the part, from 0.
    pub part: u64,
    /// How many parts there are.
    pub parts: u64,
    /// The text of what was listed.
    pub listing: &'t [u8],
    /// What stands behind.
    pub rows: &'t [u8],
}

/// Reads the front of a part's text; `None` if it is none. There is such a part.
pub fn read_head(text: &[u8]) -> Option<Head<'_>>
    ensures there { IfSome result (λ h. h.part < h.parts) }
    ensures small { IfSome result (λ h. (h.parts < 2 ^ 64) × (length h.listing.now < 2 ^ 64)) }
    ensures front { IfSome result (λ h.
        text.now ≡ head_text h.part h.parts h.listing.now ++ h.rows.now) }
    ensures written { (part parts : ℕ) (listing rows : List ℕ) → part < parts → parts < 2 ^ 64
        → length listing < 2 ^ 64 → text.now ≡ head_text part parts listing ++ rows
        → IsSomeAnd result (λ h. (h.part ≡ part) × (h.parts ≡ parts) × (h.listing.now ≡ listing)
        × (h.rows.now ≡ rows)) }
{
    let text = text.strip_prefix(FIRST_LINE)?;
    let (from_one, text) = number(text)?;
    let (parts, text) = number(text)?;
    let (listing, rows) = sized(text)?;
    let part = from_one.checked_sub(1)?;
    if part >= parts {
        return None;
    }
    Some(Head {
        part,
        parts,
        listing,
        rows,
    })
}
