//! What a part's text says of the pieces of one file, read.
ghost use Rattle.std.specs.Prelude.{◌≡◌, ◌+◌, ◌*◌, ◌++◌, ◌<◌, ◌≤◌, ℕ, List, IfOk, length, true};
ghost use Rattle.assembling.specs.Reading.{AddsCount, IsBehind};
ghost use Rattle.assembling.specs.Said.{FitsCount, RowSaid, said_text};
ghost use Rattle.assembling.specs.Sizes.{row_size};
ghost use Rattle.drafts.specs.Outline.{AreOfLength};
ghost use Rattle.gathering.specs.PartRows.{joined_hashes};

use hashtree::Hash;
use pieces::V1File;
use std::alloc::AllocError;

/// What the parts say of one file, as far as it was read.
#[derive(Drop)]
pub(crate) struct FileRows {
    /// The nodes over its pieces.
    pub(crate) nodes: Vec<Hash>,
    /// The digests of a hybrid's cuts, and that of the last one filled up with zeros.
    pub(crate) v1: V1File,
}

// What stands behind what was read.
type Rest<'t> = Result<&'t [u8], AllocError>;

/// Reads what stands in front of a text of this many pieces, and gives what stands behind it. Of no
/// pieces nothing stands there. The text has room for them.
pub(crate) fn read_row<'t>(
    text: &'t [u8],
    count: u64,
    hybrid: bool,
    rows: &mut FileRows,
) -> Rest<'t>
    requires { row_size hybrid count ≤ length text.now }
    ensures size { IfOk result (λ rest. length rest.now + row_size hybrid count
        ≡ length text.now) }
    ensures count { IfOk result (λ _. AddsCount count hybrid rows.old rows.new) }
    ensures nothing { count ≡ 0
        → IfOk result (λ rest. (rest.now ≡ text.now) × (rows.new ≡ rows.old)) }
    ensures said { (row : RowSaid) (more : List ℕ) → 0 < count → FitsCount count row
        → text.now ≡ said_text hybrid row ++ more
        → IfOk result (λ rest. (rest.now ≡ more) × IsBehind hybrid row rows.old rows.new) }
{
    if count == 0 {
        return Ok(text);
    }
    let rest = read_each(text, count, &mut rows.nodes)?;
    if hybrid {
        read_cuts(rest, count, &mut rows.v1)
    } else {
        Ok(rest)
    }
}

// Reads the digests of this many cuts, and at last that of the last one filled up with zeros.
fn read_cuts<'t>(text: &'t [u8], count: u64, v1: &mut V1File) -> Rest<'t>
    requires { 20 * count + 20 ≤ length text.now }
    ensures size { IfOk result (λ rest. length rest.now + (20 * count + 20)
        ≡ length text.now) }
    ensures count { IfOk result (λ _.
        length v1.new.cuts.items ≡ length v1.old.cuts.items + count) }
    ensures said { (cuts : List (List ℕ)) (padded more : List ℕ) → length cuts ≡ count
        → AreOfLength 20 cuts → length padded ≡ 20
        → text.now ≡ joined_hashes cuts ++ (padded ++ more)
        → IfOk result (λ rest. (rest.now ≡ more)
        × (v1.new.cuts.items ≡ v1.old.cuts.items ++ cuts) × (v1.new.padded ≡ padded)) }
{
    let rest = read_each(text, count, &mut v1.cuts)?;
    let (padded, behind) = rest.split_first_chunk::<20>().unwrap();
    v1.padded = *padded;
    Ok(behind)
}

// Reads this many digests, and puts them behind the others.
fn read_each<'t, const N: usize>(text: &'t [u8], count: u64, digests: &mut Vec<[u8; N]>) -> Rest<'t>
    requires { N * count ≤ length text.now }
    ensures size { IfOk result (λ rest. length rest.now + N * count ≡ length text.now) }
    ensures count { IfOk result (λ _.
        length digests.new.items ≡ length digests.old.items + count) }
    ensures said { (given : List (List ℕ)) (more : List ℕ) → length given ≡ count
        → AreOfLength N given → text.now ≡ joined_hashes given ++ more
        → IfOk result (λ rest. (rest.now ≡ more)
        × (digests.new.items ≡ digests.old.items ++ given)) }
{
    let mut rest = text;
    'digests: for _number in 0..count {
        let (digest, behind) = rest.split_first_chunk::<N>().unwrap();
        digests.push(*digest).map_err(AllocError::from)?;
        rest = behind;
    }
    Ok(rest)
}
