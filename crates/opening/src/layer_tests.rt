//! The tests of the piece layers, and the trees with their layers (BEP 52, "piece layers").

ghost use Rattle.std.specs.Prelude.{◌≡◌, ◌<◌, ◌≤◌, ◌^◌, All, IfOk, length, map};
ghost use Rattle.std.specs.List.{list_any};
ghost use Rattle.std.specs.Str.{bytes_eq};
ghost use Rattle.filetree.specs.Tests.{Passes, Tests};
ghost use Rattle.opening.specs.Layered.{layer_pairs};
ghost use Rattle.opening.specs.PieceLayers.{lacks_layer, lacks_size, leads_to, mismatches, tree_at};
ghost use Rattle.opening.specs.Refusals.{layer_rows};
ghost use Rattle.opening.specs.Room.{HasExactRoom};
ghost use Rattle.opening.specs.Seen.{tree_entry};
ghost use Rattle.pieces.specs.Pieces.{pieces_of};

use crate::layers::Layers;
use crate::roots::Root;
use crate::torrent::TreeInfo;
use filetree::Refusal;
use hashtree::{Hash, Shape, layer_root};
use pieces::PieceLength;
use std::alloc::{AllocError, Global};

/// Tests the layers: each that is needed is there, has its size, and leads to its root.
pub(crate) fn test(
    trees: &[Root],
    layers: &Layers<'_, '_>,
    piece_length: PieceLength,
) -> Result<(), Refusal>
    requires { All (λ t. t.length ≤ 2 ^ 46) trees.now }
    ensures { Passes (layer_rows piece_length (layer_pairs layers.now) trees.now)
        (λ _. Unit {0}) result }
{
    test_missing(trees, layers, piece_length)?;
    test_sizes(trees, layers, piece_length)?;
    test_layer_roots(trees, layers, piece_length)
}

// Tests that each layer that is needed is there.
fn test_missing(
    trees: &[Root],
    layers: &Layers<'_, '_>,
    piece_length: PieceLength,
) -> Result<(), Refusal>
    ensures { Tests (list_any (lacks_layer piece_length (layer_pairs layers.now)) trees.now)
        Refusal.LayerMissing result }
{
    'trees: for tree in trees {
        if tree.length > piece_length.bytes() && layers.under(&tree.root).is_none() {
            return Err(Refusal::LayerMissing);
        }
    }
    Ok(())
}

// Tests that each layer has one hash for each piece.
fn test_sizes(
    trees: &[Root],
    layers: &Layers<'_, '_>,
    piece_length: PieceLength,
) -> Result<(), Refusal>
    ensures { Tests (list_any (lacks_size piece_length (layer_pairs layers.now)) trees.now)
        Refusal.LayerSize result }
{
    'trees: for tree in trees {
        if tree.length > piece_length.bytes() && layers.layer_of(tree, piece_length).is_none() {
            return Err(Refusal::LayerSize);
        }
    }
    Ok(())
}

// Tests that each layer leads to its root.
fn test_layer_roots(
    trees: &[Root],
    layers: &Layers<'_, '_>,
    piece_length: PieceLength,
) -> Result<(), Refusal>
    requires { All (λ t. t.length ≤ 2 ^ 46) trees.now }
    ensures { Tests (list_any (mismatches piece_length (layer_pairs layers.now)) trees.now)
        Refusal.LayerMismatch result }
{
    'trees: for tree in trees {
        if mismatches(tree, layers, piece_length) {
            return Err(Refusal::LayerMismatch);
        }
    }
    Ok(())
}

// Whether a tree needs a layer, and has one that leads to another root.
fn mismatches(tree: &Root, layers: &Layers<'_, '_>, piece_length: PieceLength) -> bool
    requires { tree.now.length ≤ 2 ^ 46 }
    ensures { result ≡ mismatches piece_length (layer_pairs layers.now) tree.now }
{
    if tree.length <= piece_length.bytes() {
        return false;
    }
    match layers.layer_of(tree, piece_length) {
        Some(hashes) => !leads(tree, hashes, piece_length),
        None => false,
    }
}

// Whether the tree over a layer has the tree's root.
fn leads(tree: &Root, hashes: &[Hash], piece_length: PieceLength) -> bool
    requires longer { piece_length < tree.now.length }
    requires bound { tree.now.length ≤ 2 ^ 46 }
    requires whole { length hashes.now ≡ pieces_of piece_length tree.now.length }
    ensures { result ≡ bytes_eq (leads_to piece_length tree.now hashes.now) tree.now.root }
{
    let bytes = piece_length.bytes();
    let (Some(shape), Some(piece)) = (Shape::of(tree.length), Shape::of(bytes)) else {
        unreachable!();
    };
    let layer = piece.height();
    let height = shape.height();
    prove!(layer <= height);
    layer_root(shape, layer, hashes) == tree.root
}

/// The trees with their layers.
pub(crate) fn infos<'a>(
    alloc: Global,
    trees: &[Root],
    layers: &Layers<'_, 'a>,
    piece_length: PieceLength,
) -> Result<Vec<TreeInfo<'a>>, AllocError>
    ensures trees { IfOk result
        (λ ts. map tree_entry ts.items
        ≡ map (tree_at piece_length (layer_pairs layers.now)) trees.now) }
    ensures room { IfOk result HasExactRoom }
{
    let mut infos = Vec::with_capacity(alloc, trees.len())?;
    'trees: for tree in trees {
        infos.push_reserved(tree_info(tree, layers, piece_length));
    }
    Ok(infos)
}

// The tree with its layer.
fn tree_info<'a>(tree: &Root, layers: &Layers<'_, 'a>, piece_length: PieceLength) -> TreeInfo<'a>
    ensures { tree_entry result ≡ tree_at piece_length (layer_pairs layers.now) tree.now }
{
    let layer = if tree.length > piece_length.bytes() {
        layers.layer_of(tree, piece_length)
    } else {
        None
    };
    TreeInfo {
        root: tree.root,
        length: tree.length,
        layer: layer.unwrap_or(&[]),
    }
}
