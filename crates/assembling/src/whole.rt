//! The root of a whole file, over the nodes of its pieces.
ghost use Rattle.std.specs.Prelude.{◌^◌, ◌≤◌};
ghost use Rattle.assembling.specs.Taking.{HasEach};
ghost use Rattle.assembling.specs.Whole.{IsWhole};
ghost use Rattle.part_texts.specs.Divisions.{hashed};
ghost use Rattle.pieces.specs.Pieces.{pieces_of};

use crate::rows::FileRows;
use hashtree::{Hash, Shape, layer_root};
use pieces::PieceLength;

/// The root of a file of this length over the nodes of its pieces. Of an empty file it means
/// nothing. Conditions: a file may have as many bytes, and there is a node for each piece, and in a
/// hybrid a digest of each.
pub(crate) fn root_of_rows(
    rows: &FileRows,
    length: u64,
    piece_length: PieceLength,
    hybrid: bool,
) -> Hash
    requires fits { length ≤ 2 ^ 46 }
    requires each { HasEach hybrid (pieces_of piece_length (hashed length)) rows.now }
    ensures { IsWhole piece_length hybrid length rows.now result }
{
    if length == 0 {
        return [0; 32];
    }
    if length <= piece_length.bytes() {
        return rows.nodes[0];
    }
    let layer = Shape::of(piece_length.bytes()).unwrap().height();
    layer_root(Shape::of(length).unwrap(), layer, &rows.nodes)
}
