//! Layers of trees and their roots, beside trees that are built from below.
use hashtree::{BLOCK_LENGTH, Hash, LayerBuilder, Shape, fill_levels, layer_root};
use sha2::{Digest, Sha256};
use std::alloc::{AllocError, Global};
use std::test::*;

// SHA-256 of two hashes joined into one text.
fn join(left: &Hash, right: &Hash) -> Hash {
    let mut both = [0u8; 64];
    both[..32].copy_from_slice(left);
    both[32..].copy_from_slice(right);
    Sha256::digest(&both)
}

// A node of the tree over these leaves (BEP 52, "pieces root"), from below.
fn node(leaves: &[Hash], layer: u32, place: u64) -> Hash {
    if layer == 0 {
        return match leaves.get(place as usize) {
            Some(leaf) => *leaf,
            None => [0; 32],
        };
    }
    let left = place.wrapping_mul(2);
    join(
        &node(leaves, layer - 1, left),
        &node(leaves, layer - 1, left.wrapping_add(1)),
    )
}

// The nodes of a layer that stand over a leaf.
fn nodes(alloc: Global, leaves: &[Hash], layer: u32) -> Result<Vec<Hash>, AllocError> {
    let mut found = Vec::new(alloc);
    let width = 1u64.wrapping_shl(layer);
    for place in 0..leaves.len() as u64 {
        if place.wrapping_mul(width) < leaves.len() as u64 {
            found.push(node(leaves, layer, place))?;
        }
    }
    Ok(found)
}

// The least layer of one node.
fn height(blocks: u64) -> u32 {
    let mut height = 0u32;
    for layer in 0..32u32 {
        if 1u64.wrapping_shl(layer) < blocks {
            height = layer + 1;
        }
    }
    height
}

// Leaves that differ.
fn leaves(alloc: Global, count: u64) -> Result<Vec<Hash>, AllocError> {
    let mut leaves = Vec::new(alloc);
    for number in 0..count {
        leaves.push(Sha256::digest(&number.to_be_bytes()))?;
    }
    Ok(leaves)
}

// Whether the layers of this many blocks from this one up are these, and the root over it is the
// last of them.
fn are_above(
    alloc: Global,
    blocks: u64,
    layer: u32,
    layers: &[Vec<Hash>],
) -> Result<bool, AllocError> {
    let (Some(shape), Some(hashes), Some(top)) = (
        Shape::of(blocks.wrapping_mul(BLOCK_LENGTH)),
        layers.first(),
        layers.last(),
    ) else {
        return Ok(false);
    };
    if layer > shape.height() || hashes.len() as u64 != shape.pad_from(layer) {
        return Ok(false);
    }
    let levels = fill_levels(alloc, shape, layer, hashes)?;
    let root = layer_root(shape, layer, hashes);
    Ok(levels.as_slice() == layers && top.as_slice() == [root].as_slice())
}

// The layers of a tree over leaves that differ, from below.
fn layers(alloc: Global, blocks: u64) -> Result<Vec<Vec<Hash>>, AllocError> {
    let leaves = leaves(alloc, blocks)?;
    let mut layers = Vec::new(alloc);
    for layer in 0..=height(blocks) {
        layers.push(nodes(alloc, &leaves, layer)?)?;
    }
    Ok(layers)
}

#[test]
fn each_layer_of_each_shape(rt: HostRuntime) {
    for blocks in [
        1u64, 2, 3, 5, 7, 8, 9, 15, 16, 17, 31, 33, 64, 100, 257, 513, 1025,
    ] {
        let layers = layers(rt.alloc(), blocks).expect(&rt, "memory");
        for layer in 0..=height(blocks) {
            let above = layers.get(layer as usize..).unwrap_or(&[]);
            let is_right = are_above(rt.alloc(), blocks, layer, above) == Ok(true);
            assert!(rt; is_right, "layer {layer} over {blocks} blocks");
        }
    }
}

// Gives the bytes in parts of at most this many.
fn feed(builder: &mut LayerBuilder, bytes: &[u8], at_most: usize) -> Result<(), AllocError> {
    for part in bytes.chunks(at_most.max(1)) {
        if builder.len() <= 1 << 40 && part.len() <= 1 << 40 {
            builder.push(part)?;
        }
    }
    Ok(())
}

// What a builder of a layer makes of bytes that come in parts.
fn built(
    alloc: Global,
    bytes: &[u8],
    layer: u32,
    at_most: usize,
) -> Result<Option<(u64, Hash, Vec<Hash>)>, AllocError> {
    let mut builder = LayerBuilder::new(alloc, layer);
    feed(&mut builder, bytes, at_most)?;
    if builder.is_empty() {
        return Ok(None);
    }
    Ok(Some(builder.finish()?))
}

// The digest of each block.
fn leaves_of(alloc: Global, bytes: &[u8]) -> Result<Vec<Hash>, AllocError> {
    let mut leaves = Vec::new(alloc);
    for block in bytes.chunks(16384) {
        leaves.push(Sha256::digest(block))?;
    }
    Ok(leaves)
}

// The root over leaves, and the hashes of a layer: none of a layer above the root.
fn root_and_layer(
    alloc: Global,
    leaves: &[Hash],
    layer: u32,
) -> Result<(Hash, Vec<Hash>), AllocError> {
    let top = height(leaves.len() as u64);
    let under = if layer <= top { leaves } else { &[] };
    Ok((node(leaves, top, 0), nodes(alloc, under, layer)?))
}

// What it is to make of them: nothing of no bytes.
fn wanted(
    alloc: Global,
    bytes: &[u8],
    layer: u32,
) -> Result<Option<(u64, Hash, Vec<Hash>)>, AllocError> {
    if bytes.is_empty() {
        return Ok(None);
    }
    let leaves = leaves_of(alloc, bytes)?;
    let (root, hashes) = root_and_layer(alloc, &leaves, layer)?;
    Ok(Some((bytes.len() as u64, root, hashes)))
}

// Bytes of which each four differ from the others.
fn content(alloc: Global) -> Result<Vec<u8>, AllocError> {
    let mut bytes = Vec::new(alloc);
    for number in 0..36864u32 {
        bytes.extend_from_slice(&number.wrapping_mul(2654435761).to_be_bytes())?;
    }
    Ok(bytes)
}

#[test]
fn layers_of_bytes_in_parts(rt: HostRuntime) {
    let bytes = content(rt.alloc()).expect(&rt, "memory");
    for length in [0usize, 1, 16383, 16384, 16385, 131072, 131073, 147456] {
        let part = bytes.get(..length).unwrap_or(&[]);
        for layer in 0..6u32 {
            let wanted = wanted(rt.alloc(), part, layer).expect(&rt, "memory");
            for at_most in [1usize, 7, 16384, usize::MAX] {
                let built = built(rt.alloc(), part, layer, at_most).expect(&rt, "memory");
                assert!(rt;
                    built == wanted,
                    "layer {layer} of {length} bytes, {at_most} a part"
                );
            }
        }
    }
}
