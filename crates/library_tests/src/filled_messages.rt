//! Digests of messages that are filled together, beside those of `sha1` and of the standard.
use crate::places::Places;
use crate::random::Random;
use lanes::LANES;
use sha1::Sha1;
use sha1_lanes::Batch;
use std::test::*;

// Of the empty message, of the message of 64 bytes below, and of a million letters a (FIPS 180-4).
const OF_NOTHING: [u8; 20] = [
    0xda, 0x39, 0xa3, 0xee, 0x5e, 0x6b, 0x4b, 0x0d, 0x32, 0x55, 0xbf, 0xef, 0x95, 0x60, 0x18, 0x90,
    0xaf, 0xd8, 0x07, 0x09,
];

const OF_A_BLOCK: [u8; 20] = [
    0xa7, 0x0c, 0xfb, 0xfe, 0x75, 0x63, 0xdd, 0x0e, 0x66, 0x5c, 0x7c, 0x67, 0x15, 0xa9, 0x6a, 0x8d,
    0x75, 0x69, 0x50, 0xc0,
];

const OF_A_MILLION: [u8; 20] = [
    0x34, 0xaa, 0x97, 0x3c, 0xd4, 0xc4, 0xda, 0xa4, 0xf6, 0x1e, 0xeb, 0x2b, 0xdb, 0xad, 0x27, 0x31,
    0x65, 0x34, 0x01, 0x6f,
];

// The one message of 512 bits among the short ones of NIST's vectors for SHA-1.
const A_BLOCK: [u8; 64] = [
    0x45, 0x92, 0x7e, 0x32, 0xdd, 0xf8, 0x01, 0xca, 0xf3, 0x5e, 0x18, 0xe7, 0xb5, 0x07, 0x8b, 0x7f,
    0x54, 0x35, 0x27, 0x82, 0x12, 0xec, 0x6b, 0xb9, 0x9d, 0xf8, 0x84, 0xf4, 0x9b, 0x32, 0x7c, 0x64,
    0x86, 0xfe, 0xae, 0x46, 0xba, 0x18, 0x7d, 0xc1, 0xcc, 0x91, 0x45, 0x12, 0x1e, 0x14, 0x92, 0xe6,
    0xb0, 0x6e, 0x90, 0x07, 0x39, 0x4d, 0xc3, 0x3b, 0x77, 0x48, 0xf8, 0x6a, 0xc3, 0x20, 0x7c, 0xfe,
];

// As many zeros as stand after a part at most.
const ZEROS: [u8; 128] = [0; 128];

// Parts of messages in one buffer: where those of each lane stand, and how many bytes each has with
// the zeros after it.
#[derive(Clone, Copy)]
struct Parts<'a> {
    buffer: &'a [u8],
    places: Places,
    whole: usize,
}

// The digests of the messages that these parts make up, if they can be hashed side by side.
fn digests_of(parts: &[Parts<'_>]) -> Option<[[u8; 20]; LANES]> {
    let mut batch = Batch::new();
    for part in parts {
        if part.whole % 64 != 0 || !part.places.fit(part.buffer, part.whole) {
            return None;
        }
        let places = &part.places;
        batch.update(part.buffer, &places.starts, &places.sizes, part.whole);
    }
    Some(batch.finish())
}

// The digest that `sha1` gives the message of this lane alone.
fn digest_alone(parts: &[Parts<'_>], lane: usize) -> [u8; 20] {
    let mut hasher = Sha1::new();
    for part in parts {
        let own = part.places.message(part.buffer, lane);
        hasher.update(own);
        hasher.update(ZEROS.get(own.len()..part.whole).unwrap_or(&[]));
    }
    hasher.finalize()
}

// Whether the message of each lane has the digest that `sha1` gives it alone.
fn are_of_sha1(parts: &[Parts<'_>]) -> bool {
    let Some(found) = digests_of(parts) else {
        return false;
    };
    (0..LANES).all(|lane| found.get(lane) == Some(&digest_alone(parts, lane)))
}

// The digest of a message in this lane, if the others have none of their own bytes.
fn digest_in(message: &[u8], lane: usize) -> Option<[u8; 20]> {
    let mut places = Places::all(0, 0);
    if let Some(own) = places.sizes.get_mut(lane) {
        *own = message.len();
    }
    let part = Parts {
        buffer: message,
        places,
        whole: message.len(),
    };
    digests_of(&[part])?.get(lane).copied()
}

// A known message in one lane has its digest, beside zeros in the others.
#[test]
fn known_digests_in_each_lane(rt: HostRuntime) {
    for lane in 0..LANES {
        assert!(rt; digest_in(&[], lane) == Some(OF_NOTHING), "lane {lane}");
        assert!(rt;
            digest_in(&A_BLOCK, lane) == Some(OF_A_BLOCK),
            "lane {lane}"
        );
    }
}

#[test]
fn a_million_letters_in_all_lanes(rt: HostRuntime) {
    let letters = vec![in rt.alloc(); b'a'; 1_000_000].expect(&rt, "memory");
    let part = Parts {
        buffer: &letters,
        places: Places::all(0, 1_000_000),
        whole: 1_000_000,
    };
    assert!(rt; digests_of(&[part]) == Some([OF_A_MILLION; LANES]));
}

// The next part of each message, in a batch with this number: in two batches of four it is the same
// part for all, in one of these with zeros after it.
fn any_part<'a>(random: &mut Random, buffer: &'a [u8], batch: u32) -> Parts<'a> {
    let whole = random.below(3).wrapping_mul(64);
    let bound = whole.wrapping_add(1);
    let places = match batch % 4 {
        0 => Places::all(random.below(1024), random.below(bound)),
        1 => Places::all(random.below(1024), whole),
        _ => Places::any(random, 1024, bound),
    };
    Parts {
        buffer,
        places,
        whole,
    }
}

// 10,000 batches of messages in three parts of whole blocks.
#[test]
fn random_parts(rt: HostRuntime) {
    let mut random = Random::new();
    let mut buffer = Vec::new(rt.alloc());
    random.fill(&mut buffer, 160).expect(&rt, "memory");
    for batch in 0..10_000u32 {
        let first = any_part(&mut random, &buffer, batch);
        let second = any_part(&mut random, &buffer, batch);
        let third = any_part(&mut random, &buffer, batch);
        assert!(rt; are_of_sha1(&[first, second, third]), "batch {batch}");
    }
}
