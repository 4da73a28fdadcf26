//! The components that no path may have (BEP 52, "file tree").

ghost use Rattle.std.specs.Prelude.{◌↔◌, IsTrue};
ghost use Rattle.benc.specs.View.{pair_view, pairs_view, view};
ghost use Rattle.filetree.specs.FileTree.{HasBadPath, HasBadPathIn, IsBadComponent};
ghost use Rattle.filetree.specs.Walked.{HasBadPathAt};

use benc::{Pair, Value};
use std::str;

/// Whether no path may have this component: it is `.` or `..`, or has a `/` or a zero byte.
pub fn is_bad_component(name: &str) -> bool
    ensures { IsTrue result ↔ IsBadComponent name.now }
{
    let bytes = name.as_bytes();
    bytes == b".".as_slice()
        || bytes == b"..".as_slice()
        || bytes.contains(&b'/')
        || bytes.contains(&0)
}

/// Whether some component in a file tree is bad, of a directory too.
#[cycle(bad_path)]
pub(crate) fn has_bad_path(pairs: &[Pair<'_>]) -> bool
    ensures { IsTrue result ↔ HasBadPath (pairs_view pairs.now) }
{
    'pairs: for pair in pairs {
        if has_bad_path_at(pair) {
            return true;
        }
    }
    false
}

// Whether the key of this pair is a bad component, or one behind it is.
#[cycle(bad_path)]
fn has_bad_path_at(pair: &Pair<'_>) -> bool
    ensures { IsTrue result ↔ HasBadPathAt (pair_view pair.now) }
{
    !pair.key.is_empty() && (is_bad_key(pair.key) || has_bad_path_in(&pair.value))
}

// Whether the value is a directory in which some component is bad.
#[cycle(bad_path)]
fn has_bad_path_in(value: &Value<'_>) -> bool
    ensures { IsTrue result ↔ HasBadPathIn (view value.now) }
{
    match value {
        Value::Dict(pairs) => has_bad_path(pairs),
        _ => false,
    }
}

// Whether the key is no component that a path may have; no name is changed to make it one.
fn is_bad_key(key: &[u8]) -> bool
    ensures { IsTrue result ↔ IsBadComponent key.now }
{
    match str::from_utf8(key) {
        Ok(name) => is_bad_component(name),
        Err(_) => true,
    }
}
