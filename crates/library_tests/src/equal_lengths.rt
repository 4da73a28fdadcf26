//! Digests of messages of one length, side by side, beside those of `sha2`.
use crate::random::Random;
use lanes::LANES;
use sha2::{Digest, Sha256};
use sha256_lanes::{digests, parents};
use std::alloc::{AllocError, Global};
use std::test::*;

// Of the empty message, of the message of 64 bytes below, and of a million letters a (FIPS 180-4).
const OF_NOTHING: [u8; 32] = [
    0xe3, 0xb0, 0xc4, 0x42, 0x98, 0xfc, 0x1c, 0x14, 0x9a, 0xfb, 0xf4, 0xc8, 0x99, 0x6f, 0xb9, 0x24,
    0x27, 0xae, 0x41, 0xe4, 0x64, 0x9b, 0x93, 0x4c, 0xa4, 0x95, 0x99, 0x1b, 0x78, 0x52, 0xb8, 0x55,
];

const OF_A_BLOCK: [u8; 32] = [
    0x42, 0xe6, 0x1e, 0x17, 0x4f, 0xbb, 0x38, 0x97, 0xd6, 0xdd, 0x6c, 0xef, 0x3d, 0xd2, 0x80, 0x2f,
    0xe6, 0x7b, 0x33, 0x19, 0x53, 0xb0, 0x61, 0x14, 0xa6, 0x5c, 0x77, 0x28, 0x59, 0xdf, 0xc1, 0xaa,
];

const OF_A_MILLION: [u8; 32] = [
    0xcd, 0xc7, 0x6e, 0x5c, 0x99, 0x14, 0xfb, 0x92, 0x81, 0xa1, 0xc7, 0xe2, 0x84, 0xd7, 0x3e, 0x67,
    0xf1, 0x80, 0x9a, 0x48, 0xa4, 0x97, 0x20, 0x0e, 0x04, 0x6d, 0x39, 0xcc, 0xc7, 0x11, 0x2c, 0xd0,
];

// The one message of 512 bits among the short ones of NIST's vectors for SHA-256.
const A_BLOCK: [u8; 64] = [
    0x5a, 0x86, 0xb7, 0x37, 0xea, 0xea, 0x8e, 0xe9, 0x76, 0xa0, 0xa2, 0x4d, 0xa6, 0x3e, 0x7e, 0xd7,
    0xee, 0xfa, 0xd1, 0x8a, 0x10, 0x1c, 0x12, 0x11, 0xe2, 0xb3, 0x65, 0x0c, 0x51, 0x87, 0xc2, 0xa8,
    0xa6, 0x50, 0x54, 0x72, 0x08, 0x25, 0x1f, 0x6d, 0x42, 0x37, 0xe6, 0x61, 0xc7, 0xbf, 0x4c, 0x77,
    0xf3, 0x35, 0x39, 0x03, 0x94, 0xc3, 0x7f, 0xa1, 0xa9, 0xf9, 0xbe, 0x83, 0x6a, 0xc2, 0x85, 0x09,
];

// Two hashes for each lane.
const TWICE: usize = 2 * LANES;

// The digests of messages of this many bytes, if they can be hashed side by side.
fn digests_of(messages: &[u8], size: usize) -> Option<[[u8; 32]; LANES]> {
    let is_fit = size % 64 == 0 && size < 1 << 32;
    if !is_fit || messages.len() != LANES * size {
        return None;
    }
    Some(digests(messages, size))
}

// Whether each message has the digest that `sha2` gives it alone.
fn are_of_sha2(messages: &[u8], size: usize) -> bool {
    let Some(found) = digests_of(messages, size) else {
        return false;
    };
    let mut rest = messages;
    for digest in &found {
        let (message, others) = rest.split_at(size.min(rest.len()));
        if Sha256::digest(message) != *digest {
            return false;
        }
        rest = others;
    }
    true
}

// Whether each pair of hashes has the node that `sha2` gives it alone.
fn are_nodes(hashes: &[[u8; 32]]) -> bool {
    if hashes.len() != TWICE {
        return false;
    }
    let pairs = hashes.as_flattened();
    pairs
        .chunks(64)
        .zip(&parents(hashes))
        .all(|(pair, node)| Sha256::digest(pair) == *node)
}

// A message for each lane: this one in one of them, and as many other bytes in each other.
fn with_lane(alloc: Global, message: &[u8], lane: usize, other: u8) -> Result<Vec<u8>, AllocError> {
    let mut messages = Vec::new(alloc);
    for number in 0..LANES {
        if number == lane {
            messages.extend_from_slice(message)?;
        } else {
            messages.resize(messages.len().wrapping_add(message.len()), other)?;
        }
    }
    Ok(messages)
}

// The digest that is found of the message in this lane.
fn digest_in(messages: &[u8], lane: usize) -> Option<[u8; 32]> {
    digests_of(messages, messages.len() / LANES)?
        .get(lane)
        .copied()
}

// Messages, their digests, and a byte for the other lanes.
const KNOWN: &[(&[u8], &[u8; 32], u8)] = &[
    (&[], &OF_NOTHING, 0),
    (&A_BLOCK, &OF_A_BLOCK, 0),
    (&A_BLOCK, &OF_A_BLOCK, 255),
];

// A known message in one lane has its digest, whatever stands in the others.
#[test]
fn known_digests_in_each_lane(rt: HostRuntime) {
    for (message, digest, other) in KNOWN {
        for lane in 0..LANES {
            let messages = with_lane(rt.alloc(), message, lane, *other).expect(&rt, "memory");
            let found = digest_in(&messages, lane);
            assert!(rt; found == Some(**digest), "lane {lane}");
        }
    }
}

#[test]
fn a_million_letters_in_all_lanes(rt: HostRuntime) {
    let letters = vec![in rt.alloc(); b'a'; LANES * 1_000_000].expect(&rt, "memory");
    assert!(rt; digests_of(&letters, 1_000_000) == Some([OF_A_MILLION; LANES]));
}

// Messages of this many bytes, of which each is another.
fn of_each_lane(alloc: Global, size: usize) -> Result<Vec<u8>, AllocError> {
    let mut messages = Vec::new(alloc);
    for lane in 0..LANES as u8 {
        messages.resize(messages.len().wrapping_add(size), lane)?;
    }
    Ok(messages)
}

// Equal messages, and messages of which each is another, of each length up to ten blocks and of
// a block of a file.
#[test]
fn equal_and_other_messages(rt: HostRuntime) {
    for blocks in [0usize, 1, 2, 3, 4, 5, 6, 7, 8, 9, 10, 256] {
        let size = blocks * 64;
        let equal = vec![in rt.alloc(); 0xa5u8; size * LANES].expect(&rt, "memory");
        let other = of_each_lane(rt.alloc(), size).expect(&rt, "memory");
        assert!(rt;
            are_of_sha2(&equal, size) && are_of_sha2(&other, size),
            "{size} bytes"
        );
    }
}

// 10,000 batches of random messages, each of up to four blocks.
#[test]
fn random_messages(rt: HostRuntime) {
    let mut random = Random::new();
    let mut messages = Vec::new(rt.alloc());
    for batch in 0..10_000u32 {
        let [blocks, ..] = random.next();
        let size = usize::from(blocks % 5) * 64;
        random
            .fill(&mut messages, size * LANES / 8)
            .expect(&rt, "memory");
        assert!(rt; are_of_sha2(&messages, size), "batch {batch}");
    }
}

// 10,000 batches of pairs of hashes, of which each has other bytes than before.
#[test]
fn random_pairs(rt: HostRuntime) {
    let mut random = Random::new();
    let mut hashes = [[0u8; 32]; TWICE];
    for batch in 0..10_000u32 {
        for hash in &mut hashes {
            let [place, byte, ..] = random.next();
            hash[usize::from(place % 32)] = byte;
        }
        assert!(rt; are_nodes(&hashes), "batch {batch}");
    }
}
