//! Digests of messages of any lengths, side by side, beside those of `sha2`.
use crate::places::Places;
use crate::random::Random;
use lanes::LANES;
use sha2::{Digest, Sha256};
use sha256_lanes::digests_at;
use std::test::*;

// Whether the message of each lane has the digest that `sha2` gives it alone.
fn are_of_sha2(buffer: &[u8], places: &Places) -> bool {
    if !places.fit(buffer, usize::MAX) {
        return false;
    }
    let found = digests_at(buffer, &places.starts, &places.sizes);
    (0..LANES).all(|lane| found.get(lane) == Some(&Sha256::digest(places.message(buffer, lane))))
}

// A message of each length up to three blocks and more, in each lane, beside others of a length of
// their own.
#[test]
fn each_length_in_each_lane(rt: HostRuntime) {
    let mut random = Random::new();
    let mut buffer = Vec::new(rt.alloc());
    random.fill(&mut buffer, 100).expect(&rt, "memory");
    for size in 0..200usize {
        for lane in 0..LANES {
            let mut places = Places::all(300, 77);
            if let Some(own) = places.sizes.get_mut(lane) {
                *own = size;
            }
            assert!(rt;
                are_of_sha2(&buffer, &places),
                "{size} bytes in lane {lane}"
            );
        }
        assert!(rt;
            are_of_sha2(&buffer, &Places::all(300, size)),
            "{size} bytes in all lanes"
        );
    }
}

#[test]
fn messages_in_an_empty_buffer(rt: HostRuntime) {
    assert!(rt; are_of_sha2(&[], &Places::all(0, 0)));
}

// 10,000 batches of random places, which overlap: of messages of some blocks, of many, or of none.
#[test]
fn random_places(rt: HostRuntime) {
    let mut random = Random::new();
    let mut buffer = Vec::new(rt.alloc());
    random.fill(&mut buffer, 129).expect(&rt, "memory");
    for batch in 0..10_000u32 {
        let most = match batch % 4 {
            0 => 66,
            1 => 130,
            2 => 200,
            _ => 520,
        };
        let places = Places::any(&mut random, 512, most);
        assert!(rt; are_of_sha2(&buffer, &places), "batch {batch}");
    }
}
