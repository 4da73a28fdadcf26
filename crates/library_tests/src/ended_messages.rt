//! Digests of messages that end before the others of their batch.
use crate::places::Places;
use crate::random::Random;
use lanes::LANES;
use sha1::Sha1;
use sha1_lanes::Batch;
use std::test::*;

// Messages whose padding takes one block and two, and their digests (FIPS 180-2, A.1 and A.2).
const KNOWN: [(&[u8], [u8; 20]); 2] = [
    (
        b"abc",
        [
            0xa9, 0x99, 0x3e, 0x36, 0x47, 0x06, 0x81, 0x6a, 0xba, 0x3e, 0x25, 0x71, 0x78, 0x50,
            0xc2, 0x6c, 0x9c, 0xd0, 0xd8, 0x9d,
        ],
    ),
    (
        b"abcdbcdecdefdefgefghfghighijhijkijkljklmklmnlmnomnopnopq",
        [
            0x84, 0x98, 0x3e, 0x44, 0x1c, 0x3b, 0xd2, 0x6e, 0xba, 0xae, 0x4a, 0xa1, 0xf9, 0x51,
            0x29, 0xe5, 0xe5, 0x46, 0x70, 0xf1,
        ],
    ),
];

// The digest of the message of a lane: its whole blocks are taken beside as many bytes of the
// others, and then it is ended.
fn ended_in(buffer: &[u8], places: &Places, lane: usize) -> Option<[u8; 20]> {
    let message = places.message(buffer, lane);
    let whole = message.len() / 64 * 64;
    let mut begun = *places;
    for size in &mut begun.sizes {
        *size = (*size).min(whole);
    }
    if lane >= LANES || !begun.fit(buffer, whole) {
        return None;
    }
    let mut batch = Batch::new();
    batch.update(buffer, &begun.starts, &begun.sizes, whole);
    Some(batch.ended(lane, &message[whole..]))
}

#[test]
fn known_digests_in_each_lane(rt: HostRuntime) {
    for (message, digest) in KNOWN {
        for lane in 0..LANES {
            let found = ended_in(message, &Places::all(0, message.len()), lane);
            assert!(rt; found == Some(digest), "lane {lane}");
        }
    }
}

// A message of each length up to three blocks and more ends in each lane, beside others of a length
// of their own.
#[test]
fn each_length_in_each_lane(rt: HostRuntime) {
    let mut random = Random::new();
    let mut buffer = Vec::new(rt.alloc());
    random.fill(&mut buffer, 160).expect(&rt, "memory");
    for size in 0..200usize {
        for lane in 0..LANES {
            let mut places = Places::any(&mut random, 1000, 280);
            if let Some(own) = places.sizes.get_mut(lane) {
                *own = size;
            }
            let message = places.message(&buffer, lane);
            assert!(rt;
                message.len() == size
                    && ended_in(&buffer, &places, lane) == Some(Sha1::digest(message)),
                "{size} bytes in lane {lane}"
            );
        }
    }
}

// 10,000 batches of messages anywhere in a buffer, of which one ends.
#[test]
fn random_messages(rt: HostRuntime) {
    let mut random = Random::new();
    let mut buffer = Vec::new(rt.alloc());
    random.fill(&mut buffer, 160).expect(&rt, "memory");
    for batch in 0..10_000usize {
        let places = Places::any(&mut random, 1000, 280);
        let lane = batch % LANES;
        let message = places.message(&buffer, lane);
        assert!(rt;
            ended_in(&buffer, &places, lane) == Some(Sha1::digest(message)),
            "batch {batch}"
        );
    }
}
