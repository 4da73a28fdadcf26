//! Shapes of trees and the hashes of pads, beside hashes that were computed elsewhere.
use hashtree::{Hash, Shape, zero};
use std::test::*;

const Z0: Hash = [0; 32];

// SHA-256 of 64 zero bytes.
const Z1: Hash = [
    0xf5, 0xa5, 0xfd, 0x42, 0xd1, 0x6a, 0x20, 0x30, 0x27, 0x98, 0xef, 0x6e, 0xd3, 0x09, 0x97, 0x9b,
    0x43, 0x00, 0x3d, 0x23, 0x20, 0xd9, 0xf0, 0xe8, 0xea, 0x98, 0x31, 0xa9, 0x27, 0x59, 0xfb, 0x4b,
];

// SHA-256 of the 64 bytes of Z1 twice.
const Z2: Hash = [
    0xdb, 0x56, 0x11, 0x4e, 0x00, 0xfd, 0xd4, 0xc1, 0xf8, 0x5c, 0x89, 0x2b, 0xf3, 0x5a, 0xc9, 0xa8,
    0x92, 0x89, 0xaa, 0xec, 0xb1, 0xeb, 0xd0, 0xa9, 0x6c, 0xde, 0x60, 0x6a, 0x74, 0x8b, 0x5d, 0x71,
];

#[test]
fn zero_hashes(rt: HostRuntime) {
    assert!(rt; zero(0) == Z0 && zero(1) == Z1 && zero(2) == Z2);
}

// Of a shape: the blocks, the height, the length of the last block, and the place of the first pad
// in layer 1, or in layer 0 if the tree has no other.
fn numbers_of(length: u64) -> Option<(u64, u32, u64, u64)> {
    let shape = Shape::of(length)?;
    let last = shape.block_len(shape.blocks() - 1);
    let pad = shape.pad_from(shape.height().min(1));
    Some((shape.blocks(), shape.height(), last, pad))
}

// Lengths, and the numbers of their shapes.
const SHAPES: &[(u64, Option<(u64, u32, u64, u64)>)] = &[
    (0, None),
    (1, Some((1, 0, 1, 1))),
    (16384, Some((1, 0, 16384, 1))),
    (16385, Some((2, 1, 1, 1))),
    (40000, Some((3, 2, 7232, 2))),
    (65636, Some((5, 3, 100, 3))),
    (1 << 46, Some((1 << 32, 32, 16384, 1 << 31))),
    ((1 << 46) + 1, None),
];

#[test]
fn shapes(rt: HostRuntime) {
    for (length, shape) in SHAPES {
        assert!(rt; numbers_of(*length) == *shape, "{length}");
    }
}
