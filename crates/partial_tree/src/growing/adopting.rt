//! Taking over the nodes of a whole tree: they are compared with what is known, and the marks are
//! carried over.

ghost use Rattle.std.specs.Prelude.{◌≡◌, ℕ, ◌^◌, ◌<◌, ◌≤◌, true};
ghost use Rattle.std.specs.Bool.{OnTrue, OnFalse};
ghost use Rattle.std.specs.FinSet as set;
ghost use Rattle.node_maps.specs.Known.{look};
ghost use Rattle.node_maps.specs.Nodes.{with_marks};
ghost use Rattle.node_maps.specs.Runs.{AreKnown};
ghost use Rattle.partial_tree.specs.Claims.{IsMismatch};
ghost use Rattle.partial_tree.specs.Grown.{AgreeAt, AgreeInRow, AgreeInTree};

use node_maps::NodeMap;

/// Whether two maps of a tree of this height have one hash wherever both have one.
pub(crate) fn agree<N: NodeMap>(old: &N, new: &N, height: u32) -> bool
    requires { height ≤ 32 }
    ensures same { OnTrue result
        (AgreeInTree (look (N.seen old.now).known) (look (N.seen new.now).known) height) }
    ensures differs { OnFalse result
        (IsMismatch (look (N.seen old.now).known) (look (N.seen new.now).known)) }
{
    'layers: for layer in 0..height + 1 {
        if !agree_in_row(old, new, layer, 1 << (height - layer)) {
            return false;
        }
    }
    true
}

/// Marks in a map without marks the leaves that another one has marked, which are among the first
/// `count`. They are known.
pub(crate) fn carry_marks<N: NodeMap>(old: &N, new: &mut N, count: u64)
    requires none { (N.seen new.old).marked ≡ set.empty }
    requires known { AreKnown (look (N.seen new.old).known 0) 0 count }
    requires few { (i : ℕ) → set.contains (N.seen old.now).marked i ≡ true → i < count }
    ensures carried { N.seen new.new ≡ with_marks (N.seen new.old) (N.seen old.now).marked }
    ensures held { N.held new.new ≡ N.held new.old }
{
    'leaves: for index in 0..count {
        if old.is_marked(index) {
            new.mark(index);
        }
    }
}

// Whether they have one hash at each of the first `count` places of a layer, wherever both have
// one.
fn agree_in_row<N: NodeMap>(old: &N, new: &N, layer: u32, count: u64) -> bool
    ensures same { OnTrue result
        (AgreeInRow (look (N.seen old.now).known) (look (N.seen new.now).known) layer count) }
    ensures differs { OnFalse result
        (IsMismatch (look (N.seen old.now).known) (look (N.seen new.now).known)) }
{
    'places: for index in 0..count {
        if !agree_at(old, new, layer, index) {
            return false;
        }
    }
    true
}

// Whether they have one hash at a place, or not both have one.
fn agree_at<N: NodeMap>(old: &N, new: &N, layer: u32, index: u64) -> bool
    ensures same { OnTrue result
        (AgreeAt (look (N.seen old.now).known) (look (N.seen new.now).known) layer index) }
    ensures differs { OnFalse result
        (IsMismatch (look (N.seen old.now).known) (look (N.seen new.now).known)) }
{
    let Some(was) = old.get(layer, index) else {
        return true;
    };
    match new.get(layer, index) {
        Some(is) => was == is,
        None => true,
    }
}
