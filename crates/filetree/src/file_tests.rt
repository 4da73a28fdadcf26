//! The tests of the files of a file tree, each of any one of them. They take no memory.

ghost use Rattle.std.specs.Prelude.{◌≡◌};
ghost use Rattle.benc.specs.View.{pair_view, pairs_view, view};
ghost use Rattle.filetree.specs.FileTree.{lacks_root, walks, walks_in};
ghost use Rattle.filetree.specs.FileTests.{any_fails, fails};
ghost use Rattle.filetree.specs.Tests.{Passes};
ghost use Rattle.filetree.specs.TreeTests.{file_rows};
ghost use Rattle.filetree.specs.Walked.{walks_at};

use crate::files::{has_attribute, length, root};
use crate::refusal::Refusal;
use benc::{Pair, Value};

// The letter of `attr` that marks a symlink.
const SYMLINK: u8 = b'l';

/// Tests the files: symlinks, lengths, roots.
pub(crate) fn test_files(tree: &[Pair<'_>]) -> Result<(), Refusal>
    ensures { Passes (file_rows (walks (pairs_view tree.now))) (λ _. Unit {0}) result }
{
    if any_fails(FileTest::Symlink, tree) {
        return Err(Refusal::Symlink);
    }
    if any_fails(FileTest::Length, tree) {
        return Err(Refusal::Length);
    }
    if any_fails(FileTest::Root, tree) {
        return Err(Refusal::Root);
    }
    Ok(())
}

/// A test of one file.
#[derive(Clone, Copy)]
pub(crate) enum FileTest {
    /// It is a symlink.
    Symlink,
    /// It has no length in range.
    Length,
    /// It is not empty and has no root.
    Root,
}

// Whether the file, of which this is the dictionary, is refused by the test.
fn fails(test: FileTest, file: &Value<'_>) -> bool
    ensures { result ≡ fails test (view file.now) }
{
    match test {
        FileTest::Symlink => has_attribute(file, SYMLINK),
        FileTest::Length => length(file).is_none(),
        FileTest::Root => lacks_root(file),
    }
}

// Whether some file in a file tree is refused by the test.
#[cycle(file_test)]
fn any_fails(test: FileTest, pairs: &[Pair<'_>]) -> bool
    ensures { result ≡ any_fails test (walks (pairs_view pairs.now)) }
{
    'pairs: for pair in pairs {
        if any_fails_at(test, pair) {
            return true;
        }
    }
    false
}

// Whether the file of a pair, or one below it, is refused by the test.
#[cycle(file_test)]
fn any_fails_at(test: FileTest, pair: &Pair<'_>) -> bool
    ensures { result ≡ any_fails test (walks_at (pair_view pair.now)) }
{
    if pair.key.is_empty() {
        return fails(test, &pair.value);
    }
    any_fails_in(test, &pair.value)
}

// Whether some file in a directory is refused by the test.
#[cycle(file_test)]
fn any_fails_in(test: FileTest, value: &Value<'_>) -> bool
    ensures { result ≡ any_fails test (walks_in (view value.now)) }
{
    match value {
        Value::Dict(pairs) => any_fails(test, pairs),
        _ => false,
    }
}

// Whether a file that is not empty has no root.
fn lacks_root(file: &Value<'_>) -> bool
    ensures { result ≡ lacks_root (view file.now) }
{
    length(file).unwrap_or(0) > 0 && root(file).is_none()
}
