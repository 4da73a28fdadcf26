//! The search for leaves that are known.

ghost use Rattle.std.specs.Prelude.{◌+◌, ◌<◌, ◌≤◌, ◌^◌, IfNone, IfSome, length};
ghost use Rattle.session_exports.specs.Exports.{AreLeavesUnknown, HasBlocks, HasLeaf, NoneFrom};

use node_maps::NodeMap;
use session::{HoldsTorrent, SessionOf};

// A node of this layer covers as many leaves as a window has.
const WINDOW_LAYER: u32 = 9;

const WINDOW: u64 = 1 << WINDOW_LAYER;

/// The first block of a tree, from one on, whose leaf is known. A tree of one block has none.
/// Condition: there are more than `tree` trees.
pub(crate) fn next_leaf<T: HoldsTorrent, N: NodeMap>(
    session: &SessionOf<T, N>,
    tree: usize,
    from: u64,
) -> Option<u64>
    requires { tree < length session.now.torrent.trees }
    ensures found { IfSome result (λ b. (from ≤ b) × (b < 2 ^ 32)
        × HasLeaf session.now tree b × AreLeavesUnknown session.now tree from b) }
    ensures none { IfNone result (NoneFrom session.now tree from) }
{
    session.recall_closed_trees();
    let blocks = session.blocks(tree);
    if blocks < 2 {
        return None;
    }
    let mut block = from;
    'leaves: while block < blocks {
        if session.hash_at(tree, 0, block).is_some() {
            return Some(block);
        }
        block = after_unknown(session, tree, block, blocks);
    }
    None
}

// The block at which the search goes on after one whose leaf is not known: after all blocks under
// the node above it that covers a window, if that is not known either.
fn after_unknown<T: HoldsTorrent, N: NodeMap>(
    session: &SessionOf<T, N>,
    tree: usize,
    block: u64,
    blocks: u64,
) -> u64
    requires tree { tree < length session.now.torrent.trees }
    requires low { block < 2 ^ 32 }
    requires blocks { HasBlocks session.now tree blocks }
    requires unknown { AreLeavesUnknown session.now tree block (block + 1) }
    ensures later { block < result }
    ensures unknown { AreLeavesUnknown session.now tree block result }
{
    session.recall_closed_trees();
    let window = block / WINDOW;
    if blocks > WINDOW && session.hash_at(tree, WINDOW_LAYER, window).is_none() {
        (window + 1) * WINDOW
    } else {
        block + 1
    }
}
