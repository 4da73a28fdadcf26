//! What is exported next.

ghost use Rattle.std.specs.Prelude.{◌<◌, ◌^◌, IfNone, IfSome};
ghost use Rattle.session_exports.specs.Exports.{IsExport, NothingFrom};

use crate::ranges::range_at;
use crate::search::next_leaf;
use node_maps::NodeMap;
use session::{HoldsTorrent, SessionOf};
use wire::Ask;

/// Where an export goes on: at a block of a tree.
#[derive(Clone, Copy, Debug, PartialEq, Eq)]
pub struct Point {
    /// The tree.
    pub tree: usize,
    /// The block of its files.
    pub block: u64,
}

/// A range of known leaves of a tree.
#[derive(Clone, Copy, Debug, PartialEq, Eq)]
pub struct Export {
    /// The tree.
    pub tree: usize,
    /// The ask that these leaves answer, with proof up to the root.
    pub ask: Ask,
}

impl Export {
    ghost use Rattle.std.specs.Prelude.{◌≡◌};
    ghost use Rattle.session_exports.specs.Exports.{point_after};

    /// Where the export goes on after these leaves.
    pub fn end(&self) -> Point
        ensures { result ≡ point_after self.now }
    {
        Point {
            tree: self.tree,
            block: u64::from(self.ask.index) + u64::from(self.ask.length),
        }
    }
}

/// The leaves that are exported next, from a point on: an aligned range of 2 to 512 leaves, all
/// known, that holds the first block whose leaf is known. What the session answers to its ask
/// ([`Session::answer`]) is stored by every session of the torrent, whatever that one knows, unless
/// memory is refused or two inputs with one digest are named: `StoresAnswers` of
/// [`Session::take_hashes`]. `None` if no leaf is known from there on. The leaf of a file of one
/// block is its root, which every session knows, and is not exported; marks are not either. Takes
/// no memory.
pub fn next_export<T: HoldsTorrent, N: NodeMap>(
    session: &SessionOf<T, N>,
    point: Point,
) -> Option<Export>
    ensures found { IfSome result (IsExport session.now point) }
    ensures end { IfNone result (NothingFrom session.now point) }
{
    let count = session.lent_torrent().trees().len();
    let mut from = point.block;
    'trees: for tree in point.tree..count {
        if let Some(block) = next_leaf(session, tree, from) {
            let ask = range_at(session, tree, block);
            return Some(Export { tree, ask });
        }
        from = 0;
    }
    None
}
