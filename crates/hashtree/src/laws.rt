//! What holds of the tree of each file. A function that calls one of these knows its law.

ghost use Rattle.hashtree.specs.Laws.{LeavesAreDigests, NodesJoinChildren, PadsAreZeroHashes, TopIsRoot, LayersLeadToRoot, PiecesHaveNodes, OnlyPieceHasRoot, RowsHaveNodes, RowsJoin, RowsTellPieces};

/// The leaf of a block is the block's digest.
pub fn leaves_are_digests()
    ensures { LeavesAreDigests }
{}

/// A node above the leaves is the digest of its left child followed by its right child.
pub fn nodes_join_children()
    ensures { NodesJoinChildren }
{}

/// A node wholly past the file's end is the zero hash of its layer.
pub fn pads_are_zero_hashes()
    ensures { PadsAreZeroHashes }
{}

/// The node at the top is the root.
pub fn top_is_root()
    ensures { TopIsRoot }
{}

/// The root over each layer of a file's tree, given without its pads, is the file's root.
pub fn layers_lead_to_root()
    ensures { LayersLeadToRoot }
{}

/// A node that covers a block is the node over its piece alone.
pub fn pieces_have_nodes()
    ensures { PiecesHaveNodes }
{}

/// The root of a file is the node over it as one piece.
pub fn only_piece_has_root()
    ensures { OnlyPieceHasRoot }
{}

/// The node over a piece of some of a file's pieces in a row is that of the file's tree.
pub fn rows_have_nodes()
    ensures { RowsHaveNodes }
{}

/// The nodes over two rows, of which the first has whole pieces, are those over both.
pub fn rows_join()
    ensures { RowsJoin }
{}

/// What a check of a row found tells which nodes of the file's tree are the given hashes.
pub fn rows_tell_pieces()
    ensures { RowsTellPieces }
{}
