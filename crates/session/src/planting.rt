//! The trees of a new session.

ghost use Rattle.std.specs.Prelude.{◌<◌, true, false, IfOk, OnErr, OnOk, length};
ghost use Rattle.std.specs.FinSet as set;
ghost use Rattle.opening.specs.Seen.{tree_entry};
ghost use Rattle.opening.specs.Sound.{IsSoundTree};
ghost use Rattle.session.specs.Fresh.{IsFresh, IsPlanted};
ghost use Rattle.session.specs.Layouts.{AreKept, seen};

use hashtree::{NoMemory, Shape};
use node_maps::NodeMap;
use opening::{Torrent, TreeInfo};
use partial_tree::{Tree, recall_hash, recall_hashes};
use pieces::PieceLength;
use std::alloc::Global;

/// A tree as a new session knows it: by its root alone, or with layers also from its piece layer
/// up, if its files are longer than a piece. Fails only if memory was refused.
pub(crate) fn planted<N: NodeMap>(
    alloc: Global,
    info: &TreeInfo<'_>,
    piece_length: PieceLength,
    with_layers: bool,
) -> Result<Tree<N>, NoMemory>
    requires { IsSoundTree piece_length (tree_entry info.now) }
    ensures { IfOk result (λ t. IsPlanted piece_length with_layers (tree_entry info.now) t) }
{
    recall_hash(&info.root);
    let mut tree = Tree::new(alloc, info.root, Shape::of(info.length).unwrap())?;
    if with_layers && info.length > piece_length.bytes() {
        add_layers(&mut tree, info, piece_length)?;
    }
    Ok(tree)
}

/// The trees of a torrent as a new session knows them, in the torrent's order. Fails only if memory
/// was refused; a torrent without trees takes none.
pub(crate) fn planted_all<N: NodeMap>(
    alloc: Global,
    torrent: &Torrent<'_>,
    with_layers: bool,
) -> Result<Vec<Tree<N>>, NoMemory>
    ensures kept { IfOk result (λ ts. AreKept torrent.now ts.items) }
    ensures fresh { IfOk result
        (λ ts. IsFresh torrent.now with_layers (seen torrent.now set.empty ts.items)) }
    ensures no_memory { OnErr result (0 < length torrent.now.trees) }
{
    torrent.recall_sound();
    let infos = torrent.trees();
    let piece_length = PieceLength::new(torrent.piece_length()).unwrap();
    let mut trees = Vec::with_capacity(alloc, infos.len())?;
    'infos: for info in infos {
        trees.push_reserved(planted(alloc, info, piece_length, with_layers)?);
    }
    Ok(trees)
}

// Adds what lies from the piece layer up to a tree of which the root alone is known. The layer of
// an opened torrent leads to its root, so it need not be compared.
fn add_layers<N: NodeMap>(
    tree: &mut Tree<N>,
    info: &TreeInfo<'_>,
    piece_length: PieceLength,
) -> Result<(), NoMemory>
    requires sound { IsSoundTree piece_length (tree_entry info.now) }
    requires longer { piece_length < info.now.length }
    requires planted { IsPlanted piece_length false (tree_entry info.now) tree.old }
    ensures { OnOk result (IsPlanted piece_length true (tree_entry info.now) tree.new) }
{
    let layer = Shape::of(piece_length.bytes()).unwrap().height();
    recall_hashes(info.layer);
    tree.plant(layer, info.layer)?;
    Ok(())
}
