//! Digests of messages that pass through the lanes one behind the other, beside those of `sha1`.
use crate::places::Places;
use crate::random::Random;
use lanes::LANES;
use sha1::Sha1;
use sha1_lanes::Relay;
use std::test::*;

// In this many steps nine messages pass through all lanes.
const STEPS: usize = 2 * LANES;

// Where the parts of a relay stand in a buffer, at each step. They have one size.
#[derive(Clone, Copy)]
struct Course<'a> {
    buffer: &'a [u8],
    steps: [Places; STEPS],
    size: usize,
}

// Anywhere in this buffer, of up to four blocks.
fn any_course<'a>(random: &mut Random, buffer: &'a [u8]) -> Course<'a> {
    let size = random.below(5).wrapping_mul(64);
    let sizes = [size; LANES];
    let mut steps = [Places::all(0, 0); STEPS];
    for places in &mut steps {
        *places = Places::any(random, 1000, 1);
        places.sizes = sizes;
    }
    Course {
        buffer,
        steps,
        size,
    }
}

// Makes a step, if the parts are whole blocks and stand in the buffer.
fn step(relay: &mut Relay, course: &Course<'_>, starts: &[usize; LANES]) -> Option<[u8; 20]> {
    let places = Places {
        starts: *starts,
        sizes: [course.size; LANES],
    };
    if course.size % 64 != 0 || !places.fit(course.buffer, course.size) {
        return None;
    }
    Some(relay.step(course.buffer, starts, course.size))
}

// The digest that `sha1` gives alone to the message whose last part is that of this step, counted
// from 1.
fn digest_alone(course: &Course<'_>, count: usize) -> [u8; 20] {
    let mut hasher = Sha1::new();
    let first = count.saturating_sub(LANES);
    for (at, places) in course.steps.iter().skip(first).take(LANES).enumerate() {
        hasher.update(places.message(course.buffer, at));
    }
    hasher.finalize()
}

// Whether each message that passes through has the digest that `sha1` gives it alone.
fn is_of_sha1(course: &Course<'_>) -> bool {
    let mut relay = Relay::new();
    let mut count = 0usize;
    for places in &course.steps {
        let found = step(&mut relay, course, &places.starts);
        count = count.wrapping_add(1);
        if count >= LANES && found != Some(digest_alone(course, count)) {
            return false;
        }
    }
    true
}

// 2,000 relays whose parts stand anywhere in a buffer.
#[test]
fn random_relays(rt: HostRuntime) {
    let mut random = Random::new();
    let mut buffer = Vec::new(rt.alloc());
    random.fill(&mut buffer, 160).expect(&rt, "memory");
    for relay in 0..2_000usize {
        let course = any_course(&mut random, &buffer);
        assert!(rt; is_of_sha1(&course), "relay {relay}");
    }
}
