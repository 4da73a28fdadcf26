//! The files of a file tree.

ghost use Rattle.std.specs.Prelude.{◌≡◌, map, vec_len, IfErr, IfOk};
ghost use Rattle.std.specs.Vec.{vec_capacity};
ghost use Rattle.benc.specs.View.{pairs_view};
ghost use Rattle.filetree.specs.FileTree.{file_of_walk, walks};
ghost use Rattle.filetree.specs.Paths.{FitsInTorrent};
ghost use Rattle.filetree.specs.Tests.{NoneHolds, Passes, PassesUnlessNoMemory};
ghost use Rattle.filetree.specs.TreeTests.{tree_rows};

use crate::component::has_bad_path;
use crate::file_tests::test_files;
use crate::files::{ListedFile, list};
use crate::folder::Folders;
use crate::refusal::Refusal;
use crate::shape::is_directory;
use crate::walk::walk;
use benc::Pair;
use std::alloc::Global;

/// The files of a file tree in the order of their paths, each with its length and root. The first
/// test that holds is answered: `Shape`, `Path`, `Symlink`, `Length`, `Root`. `NoMemory` comes only
/// out of memory, and only if none of them holds.
///
/// Condition: as a dictionary the tree has a spelling ([`benc::Value::is_canonical`]), and at most
/// 126 lists and dictionaries are open in it at once, itself counted. This holds in each decoded
/// torrent, whose file tree stands inside two more dictionaries.
pub fn read_tree<'a>(alloc: Global, tree: &[Pair<'a>]) -> Result<Vec<ListedFile<'a>>, Refusal>
    requires { FitsInTorrent (pairs_view tree.now) }
    ensures passes { PassesUnlessNoMemory (tree_rows (pairs_view tree.now))
        (λ fs. fs.items ≡ map file_of_walk (walks (pairs_view tree.now))) result }
    // All tests come before any memory is taken.
    ensures memory { IfErr result
        (λ r. r ≡ Refusal.NoMemory → NoneHolds (tree_rows (pairs_view tree.now))) }
    // The list has room for its files alone.
    ensures room { IfOk result (λ fs. vec_capacity fs ≡ vec_len fs) }
{
    test_tree(tree)?;
    let mut found = Vec::new(alloc);
    let root = Folders::root();
    walk(alloc, tree, &root, &mut found)?;
    Ok(list(alloc, found)?)
}

// Tests the tree and its files. It takes no memory.
fn test_tree(tree: &[Pair<'_>]) -> Result<(), Refusal>
    ensures { Passes (tree_rows (pairs_view tree.now)) (λ _. Unit {0}) result }
{
    if !is_directory(tree) {
        return Err(Refusal::Shape);
    }
    if has_bad_path(tree) {
        return Err(Refusal::Path);
    }
    test_files(tree)
}
