//! How the digest of a block is held that cannot be proved yet.

ghost use Rattle.std.specs.Prelude.{◌≡◌, ◌+◌, ◌^◌, ◌<◌, ◌≤◌, length, slice_get, Some};
ghost use Rattle.partial_tree.specs.LeafRows.{IsLeafRow};
ghost use Rattle.partial_tree.specs.TreeRoot.{TreeRoot};
ghost use Rattle.session.specs.Layouts.{roots};
ghost use Rattle.session.specs.Pieces.{piece_span};
ghost use Rattle.holdings.specs.Holding.{IsBlockHeldBy, IsTreeBlock};

use crate::holdings::Holdings;
use crate::run::Run;
use crate::settling::Piece;
use hashtree::leaf;
use node_maps::NodeMap;
use session::{HoldsTorrent, SessionOf};

/// What became of a block that was to be held.
#[derive(Clone, Copy)]
pub enum Hold {
    /// Its digest is held. If there was no room for its piece, all of another piece gave way.
    Held {
        /// The blocks of the piece that gave way.
        dropped: Option<Run>,
    },
    /// Its leaf is known, so nothing is held of it.
    Known,
    /// Nothing is held of it, and nothing has changed: 2^64 - 1 digests were held before, or its
    /// piece is no piece of the torrent of what is held. It takes no memory.
    NoMemory,
}

impl Holdings {
    /// Holds the digest of a block whose leaf is not known, in place of an older one for its place.
    /// If its piece is new and there is no room, the piece gives way whose newest block came
    /// longest ago. Takes no memory. After a refusal nothing has changed: 2^64 - 1 digests were
    /// held before, or the piece is held with fewer blocks or is longer than the longest, as it may
    /// be with a session of another torrent. Conditions: there are more than `tree` trees, and the
    /// files of that one have more than `block` blocks.
    pub fn hold<T: HoldsTorrent, N: NodeMap>(
        &mut self,
        session: &SessionOf<T, N>,
        tree: usize,
        block: u64,
        bytes: &[u8],
    ) -> Hold
        requires tree { tree < length session.now.torrent.trees }
        requires block { IsTreeBlock session.now tree block }
        ensures { IsBlockHeldBy self.old session.now tree block bytes.now result self.new }
    {
        if session.hash_at(tree, 0, block).is_some() {
            return Hold::Known;
        }
        let piece = piece_of(session, tree, block);
        match self.keep(piece, (block - piece.first) as usize, leaf(bytes)) {
            Ok(dropped) => Hold::Held { dropped },
            Err(_) => Hold::NoMemory,
        }
    }
}

// The piece that a block belongs to.
fn piece_of<T: HoldsTorrent, N: NodeMap>(
    session: &SessionOf<T, N>,
    tree: usize,
    block: u64,
) -> Piece
    requires tree { tree < length session.now.torrent.trees }
    requires block { IsTreeBlock session.now tree block }
    ensures tree { result.tree ≡ tree }
    ensures from { result.first ≤ block }
    ensures to { block < result.first + result.size }
    ensures size { result.size ≤ 2 ^ 32 }
    ensures few { result.first + result.size < 2 ^ 64 }
    ensures piece { (t : TreeRoot) × (slice_get (roots session.now) tree ≡ Some t)
        × IsLeafRow t.length result.first
        (piece_span session.now.torrent.piece_length t.length) result.size }
{
    let blocks = session.blocks(tree);
    let width = 1u64 << session.piece_span(tree);
    let first = block - block % width;
    let size = width.min(blocks - first) as usize;
    Piece { tree, first, size }
}
