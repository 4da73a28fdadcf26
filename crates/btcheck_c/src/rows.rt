//! The pieces of a file in a row: their bytes and hashes.

ghost use Rattle.std.specs.Prelude.{◌≡◌, ◌^◌, ◌<◌, ◌≤◌, ◌+◌, ◌-◌, length, min, option_map, slice_range, Some, None};
ghost use Rattle.pieces.specs.Pieces.{pieces_of};
ghost use Rattle.btcheck_c.specs.FileChecks.{row_length};

use hashtree::Hash;
use opening::TreeInfo;
use pieces::PieceLength;

/// How many bytes the pieces from one number up to another have, of a file of this length.
pub(crate) fn row_length(piece_length: PieceLength, length: u64, from: u64, to: u64) -> u64
    requires bound { length ≤ 2 ^ 46 }
    requires order { from < to }
    requires within { to ≤ pieces_of piece_length length }
    ensures value { result ≡ row_length piece_length length from to }
    ensures some { 0 < result }
    ensures few { result ≤ length }
{
    let bytes = piece_length.bytes();
    (bytes * to).min(length) - bytes * from
}

/// The part of the piece layer that has these pieces. The only piece of a file is not in it: a hash
/// of zeros is in its place then, since it is compared by the root.
pub(crate) fn row_hashes(
    tree: &TreeInfo<'static>,
    piece_length: PieceLength,
    from: u64,
    to: u64,
) -> &'static [Hash]
    requires order { from ≤ to }
    requires listed { piece_length < tree.now.length → to ≤ length tree.now.layer.now }
    ensures one { tree.now.length ≤ piece_length → length result.now ≡ 1 }
    ensures many { piece_length < tree.now.length
        → result.now ≡ slice_range tree.now.layer.now from to }
{
    if tree.length <= piece_length.bytes() {
        &[[0; 32]]
    } else {
        &tree.layer[from as usize..to as usize]
    }
}

/// The root of a file of one piece; `None` if it has more.
pub(crate) fn only_root(tree: &TreeInfo<'static>, piece_length: PieceLength) -> Option<Hash>
    ensures one { tree.now.length ≤ piece_length → result ≡ Some tree.now.root }
    ensures many { piece_length < tree.now.length → result ≡ None }
{
    if tree.length <= piece_length.bytes() {
        Some(tree.root)
    } else {
        None
    }
}

/// The number in the file of this place of a row that begins with this piece.
pub(crate) fn numbered(first: u64, place: Option<u64>) -> Option<u64>
    ensures { result ≡ option_map (λ n. min (first + n) (2 ^ 64 - 1)) place }
{
    match place {
        Some(place) => Some(first.saturating_add(place)),
        None => None,
    }
}
