//! What a handle of holdings has.

ghost use Rattle.std.specs.Prelude.{◌≡◌, IfOk};

use hashtree::NoMemory;
use holdings::{Holdings, Pieces};
use std::alloc::Global;

/// The pieces that are looked at when something is to be settled, and their tree.
#[derive(Drop)]
pub struct Cursor {
    pub(crate) tree: usize,
    pub(crate) pieces: Pieces,
    ghost of_tree: { pieces.tree ≡ tree },
}

/// The digests that are held of blocks, and the pieces that are looked at next.
#[derive(Drop)]
pub struct Held {
    pub(crate) holdings: Holdings,
    pub(crate) cursor: Cursor,
}

impl Cursor {
    ghost use Rattle.holdings.specs.Holdings.{all_pieces};

    /// All pieces of a tree.
    pub(crate) fn of_tree(tree: usize) -> Cursor
        ensures tree { result.tree ≡ tree }
        ensures pieces { result.pieces ≡ all_pieces tree }
    {
        Cursor::at(tree, Pieces::of_tree(tree))
    }

    /// These pieces of a tree.
    pub(crate) fn at(tree: usize, pieces: Pieces) -> Cursor
        requires { pieces.tree ≡ tree }
        ensures tree { result.tree ≡ tree }
        ensures pieces { result.pieces ≡ pieces }
    {
        Cursor { tree, pieces }
    }
}

impl Held {
    ghost use Rattle.std.specs.FinMap.{empty};
    ghost use Rattle.holdings.specs.Holdings.{all_pieces, most_pieces};

    /// As [`Holdings::new`]. The pieces of the first tree are looked at.
    pub(crate) fn new(alloc: Global, bound: usize, longest: usize) -> Result<Held, NoMemory>
        ensures empty { IfOk result (λ h. h.holdings.pieces ≡ empty) }
        ensures most { IfOk result (λ h. h.holdings.most ≡ most_pieces bound longest) }
        ensures longest { IfOk result (λ h. h.holdings.longest ≡ longest) }
        ensures clock { IfOk result (λ h. h.holdings.clock ≡ 0) }
        ensures looks { IfOk result (λ h. h.cursor.pieces ≡ all_pieces 0) }
    {
        Ok(Held {
            holdings: Holdings::new(alloc, bound, longest)?,
            cursor: Cursor::of_tree(0),
        })
    }
}
