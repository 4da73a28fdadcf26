//! What holds of each file tree. A function that calls one of these knows its law.

ghost use Rattle.filetree.specs.TreeLaws.{BadPathIsBadComponent, OrderIsApart, ShapeIsStandard, WalksAreAll, WalksAreSafe};

/// The walks of a file tree are all that lead to a file, each once and in order.
pub fn walks_are_all()
    ensures { WalksAreAll }
{}

/// Paths in order ascend by their components and none is a prefix of another, and so the other way
/// round.
pub fn order_is_apart()
    ensures { OrderIsApart }
{}

/// The path of each file has one component at least and 124 at most, and none is bad: no path
/// leaves the folder in which it is looked up.
pub fn walks_are_safe()
    ensures { WalksAreSafe }
{}

/// The test of the shape is that of the standard: the root has the zero-length key, a component's
/// value is no dictionary, or a zero-length key has a sibling or a value that is no dictionary.
pub fn shape_is_standard()
    ensures { ShapeIsStandard }
{}

/// The test of the components is that of the standard: one of them, of a file or of a directory, is
/// bad.
pub fn bad_path_is_bad_component()
    ensures { BadPathIsBadComponent }
{}
