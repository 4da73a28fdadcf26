//! Which pieces are looked at.

ghost use Rattle.std.specs.Prelude.{◌≡◌, ◌<◌, ◌≤◌, ◌+◌, ◌-◌, ◌%◌, ◌^◌, ℕ, length, slice_get, Some};
ghost use Rattle.partial_tree.specs.TreeRoot.{TreeRoot};
ghost use Rattle.session.specs.Layouts.{roots};
ghost use Rattle.session.specs.Pieces.{piece_span};

use node_maps::NodeMap;
use session::{HoldsTorrent, SessionOf};

/// Pieces of a tree that are still to be looked at: those that begin with block `from` or a later
/// one, and before block `end`.
#[derive(Clone, Copy)]
pub struct Pieces {
    pub(crate) tree: usize,
    pub(crate) from: u64,
    pub(crate) end: u64,
}

impl Pieces {
    /// All pieces of a tree.
    pub fn of_tree(tree: usize) -> Pieces
        ensures { result ≡ record { tree = tree; from = 0; end = u64.MAX } }
    {
        Pieces {
            tree,
            from: 0,
            end: u64::MAX,
        }
    }

    /// The pieces that have a block among these: `count` of them, from block `first` on.
    /// Conditions: there are more than `tree` trees, and `first + count` is below 2^64.
    pub fn of_blocks<T: HoldsTorrent, N: NodeMap>(
        session: &SessionOf<T, N>,
        tree: usize,
        first: u64,
        count: u64,
    ) -> Pieces
        requires tree { tree < length session.now.torrent.trees }
        requires few { first + count < 2 ^ 64 }
        ensures tree { result.tree ≡ tree }
        ensures from { (t : TreeRoot) × (slice_get (roots session.now) tree ≡ Some t)
            × (result.from
            ≡ first - first % 2 ^ piece_span session.now.torrent.piece_length t.length) }
        ensures end { result.end ≡ first + count }
    {
        let width = 1u64 << session.piece_span(tree);
        Pieces {
            tree,
            from: first - first % width,
            end: first + count,
        }
    }
}
