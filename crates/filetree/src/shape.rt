//! The shape of a file tree (BEP 52, "file tree"): directories and files.

ghost use Rattle.std.specs.Prelude.{◌≡◌};
ghost use Rattle.benc.specs.View.{view, pairs_view};
ghost use Rattle.filetree.specs.FileTree.{is_directory, is_file, is_node};

use benc::{Pair, Value};

/// Whether each key is a component, whose value is a file's node or a directory.
#[cycle(shape)]
pub(crate) fn is_directory(pairs: &[Pair<'_>]) -> bool
    ensures { result ≡ is_directory (pairs_view pairs.now) }
{
    'pairs: for pair in pairs {
        if pair.key.is_empty() || !is_node(&pair.value) {
            return false;
        }
    }
    true
}

/// Whether there is the zero-length key alone, with a dictionary.
pub(crate) fn is_file(pairs: &[Pair<'_>]) -> bool
    ensures { result ≡ is_file (pairs_view pairs.now) }
{
    match pairs {
        [only] => only.key.is_empty() && matches!(&only.value, Value::Dict(_)),
        _ => false,
    }
}

// Whether the value is a file's node or a directory.
#[cycle(shape)]
fn is_node(value: &Value<'_>) -> bool
    ensures { result ≡ is_node (view value.now) }
{
    match value {
        Value::Dict(pairs) => is_file(pairs) || is_directory(pairs),
        _ => false,
    }
}
