//! The widest range of known leaves that holds a block.

ghost use Rattle.std.specs.Prelude.{◌≡◌, ◌*◌, ◌-◌, ◌/◌, ◌+◌, ◌<◌, ◌≤◌, ◌^◌, Some, length, slice_get};
ghost use Rattle.node_maps.specs.Places.{tree_height};
ghost use Rattle.partial_tree.specs.TreeRoot.{TreeRoot};
ghost use Rattle.session.specs.Layouts.{roots};
ghost use Rattle.session_exports.specs.Exports.{HasLeaf, IsRange, leaves_ask};

use hashtree::{Hash, Shape};
use node_maps::NodeMap;
use session::{HoldsTorrent, SessionOf};
use wire::Ask;

// The widest range has this power of two of leaves.
const MOST_SPAN: u32 = 9;

/// The ask for the widest range of known leaves, of at most 512, that holds a block whose leaf is
/// known, with proof up to the root. A known leaf stands with its sibling, so two at least are
/// known. Conditions: there are more than `tree` trees, the leaf is known, and it is not the root;
/// blocks have numbers below 2^32.
pub(crate) fn range_at<T: HoldsTorrent, N: NodeMap>(
    session: &SessionOf<T, N>,
    tree: usize,
    block: u64,
) -> Ask
    requires tree { tree < length session.now.torrent.trees }
    requires leaf { HasLeaf session.now tree block }
    requires low { block < 2 ^ 32 }
    ensures { IsRange session.now tree block result }
{
    session.recall_closed_trees();
    session.recall_distinct_roots();
    let (root, height) = root_and_height(session, tree);
    let mut span = height.min(MOST_SPAN);
    'spans: while span > 1 {
        let ask = ask_for(root, height, block, span);
        if session.can_answer(&ask) {
            return ask;
        }
        span -= 1;
    }
    ask_for(root, height, block, 1)
}

// The ask for the aligned range of 2^span leaves that holds a block.
fn ask_for(root: Hash, height: u32, block: u64, span: u32) -> Ask
    requires block { block < 2 ^ 32 }
    requires span { span ≤ 9 }
    ensures { result ≡ leaves_ask root height block span }
{
    let length = 1u64 << span;
    Ask {
        root,
        base: 0,
        index: (block / length * length) as u32,
        length: length as u32,
        proof: height.saturating_sub(1),
    }
}

// The root of a tree, and its height.
fn root_and_height<T: HoldsTorrent, N: NodeMap>(
    session: &SessionOf<T, N>,
    tree: usize,
) -> (Hash, u32)
    requires { tree < length session.now.torrent.trees }
    ensures value { (t : TreeRoot) × (slice_get (roots session.now) tree ≡ Some t)
        × (result.0 ≡ t.root) × (result.1 ≡ tree_height t.length) }
    ensures bound { result.1 ≤ 32 }
{
    session.lent_torrent().recall_sound();
    let info = &session.lent_torrent().trees()[tree];
    let shape = Shape::of(info.length).unwrap();
    (info.root, shape.height())
}
