//! What is found of a file, whether it is read alone or held.
ghost use Rattle.std.specs.Prelude.{◌≡◌, ◌<◌, ◌≤◌, ◌^◌, ℕ, List, Some, None, length, slice_get, true, IfNone, IfSome};
ghost use Rattle.benc.specs.Device.{CountsFault};
ghost use Rattle.opening.specs.Description.{FileEntry};
ghost use Rattle.opening.specs.Seen.{tree_entry};
ghost use Rattle.passes.specs.Held.{IsReadUpTo, content};
ghost use Rattle.passes.specs.Passing.{ReadsFor};
ghost use Rattle.seeding.specs.Passing.{FindsAnswer, IsOwnTree};

use crate::leaves::{Found, grow, read_tree};
use benc::{DeviceFault, Source};
use node_maps::NodeMap;
use opening::{Torrent, TreeInfo};
use passes::{HeldFiles, Read};
use std::alloc::Global;

/// The tree of the file with this number; an empty file has none.
pub(crate) fn tree_of<'a, 't>(torrent: &'a Torrent<'t>, number: usize) -> Option<&'a TreeInfo<'t>>
    requires { number < length torrent.now.files }
    ensures some { IfSome result (λ tree. (f : FileEntry)
        → slice_get torrent.now.files number ≡ Some f
        → (n : ℕ) × IsOwnTree torrent.now f n (tree_entry tree.now)) }
    ensures bounds { IfSome result (λ tree. (0 < tree.now.length) × (tree.now.length ≤ 2 ^ 46)) }
    ensures none { IfNone result ((f : FileEntry)
        → slice_get torrent.now.files number ≡ Some f → f.tree ≡ None) }
{
    torrent.recall_sound();
    let file = &torrent.files()[number];
    match file.tree {
        Some(tree) => Some(&torrent.trees()[tree]),
        None => None,
    }
}

/// Reads a file of this tree, to one byte past its length at most. It is held if there is room for
/// it.
pub(crate) fn read_or_hold<N: NodeMap, F: Source>(
    alloc: Global,
    tree: &TreeInfo<'_>,
    file: &mut F,
    held: &mut HeldFiles,
    buffer: &mut [u8],
) -> Result<Option<Found<N>>, DeviceFault>
    requires some { 0 < length buffer.old }
    requires bounds { (0 < tree.now.length) × (tree.now.length ≤ 2 ^ 46) }
    ensures reads { ReadsFor (FindsAnswer (tree_entry tree.now)) (IsReadUpTo tree.now.length)
        tree.now.length (F.seen file.old) (F.seen file.new) held.old held.new result }
    ensures counts { CountsFault (F.seen file.old).faults (F.seen file.new).faults result }
{
    match held.read(file, tree.length)? {
        Read::Held => Ok(None),
        Read::Other => Ok(Some(Ok(None))),
        Read::NoRoom => Ok(Some(read_tree(alloc, file, tree, buffer)?)),
    }
}

/// What is found of a file of this tree that is held and hashed.
pub(crate) fn find_held<N: NodeMap>(
    alloc: Global,
    tree: &TreeInfo<'_>,
    held: &HeldFiles,
    place: usize,
) -> Found<N>
    requires bounds { (0 < tree.now.length) × (tree.now.length ≤ 2 ^ 46) }
    requires hashed { held.now.is_hashed ≡ true }
    requires whole { (bytes : List ℕ)
        × (slice_get held.now.answers place ≡ Some (content bytes)) }
    ensures { (bytes : List ℕ) → slice_get held.now.answers place ≡ Some (content bytes)
        → FindsAnswer (tree_entry tree.now) (content bytes) result }
{
    if held.bytes(place).len() as u64 != tree.length || held.root(place) != tree.root {
        return Ok(None);
    }
    Ok(Some(grow(alloc, tree.length, held.leaves(place))?))
}
