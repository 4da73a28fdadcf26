//! Windows of version 1 pieces: the digests of cuts, and what a window has room for.
ghost use Rattle.std.specs.Prelude.{◌≡◌, length};
ghost use Rattle.file_windows.specs.Windows.{AreCutsWithin, length_of_cuts};

use crate::random::Random;
use file_windows::CutWindow;
use pieces::{V1Cuts, V1File};
use sha1::Sha1;
use std::alloc::Global;
use std::test::*;

// The piece length of these tests.
const PIECE: usize = 256;

const ZEROS: [u8; PIECE] = [0; PIECE];

// How many cuts a file of these tests has at most.
const MOST: usize = 4;

// Where a file begins in the buffer, and how many bytes it has.
#[derive(Clone, Copy)]
struct Place {
    start: usize,
    size: usize,
}

// The digests that `sha1` gives the cuts of a file alone, filled up with zeros, and how many there
// are.
fn digests_alone(file: &[u8]) -> ([[u8; 20]; MOST], usize) {
    let mut digests = [[0; 20]; MOST];
    let mut count = 0;
    for k in 0..MOST {
        let rest = file.get(k.wrapping_mul(PIECE)..).unwrap_or(&[]);
        if !rest.is_empty() {
            let cut = rest.get(..PIECE).unwrap_or(rest);
            let mut hasher = Sha1::new();
            hasher.update(cut);
            hasher.update(ZEROS.get(cut.len()..).unwrap_or(&[]));
            digests[k] = hasher.finalize();
            count = k.wrapping_add(1);
        }
    }
    (digests, count)
}

// Puts a file into a window, if it stands in the buffer and there is room: its first cut.
fn put(window: &mut CutWindow, buffer: &[u8], place: Place) -> Option<usize>
    requires { AreCutsWithin window.old (length buffer.now) }
    ensures within { AreCutsWithin window.new (length buffer.now) }
    ensures piece_length { length_of_cuts window.new ≡ length_of_cuts window.old }
{
    let Some(room) = buffer.len().checked_sub(place.start) else {
        return None;
    };
    if place.size > room || !window.has_room(place.size) {
        return None;
    }
    Some(window.push(place.start, place.size))
}

// Whether a window has the digests of a file, and no others for it.
fn has_digests(window: &CutWindow, first: Option<usize>, buffer: &[u8], place: Place) -> bool {
    let Some(first) = first else {
        return false;
    };
    let rest = buffer.get(place.start..).unwrap_or(&[]);
    let (mut digests, count) = digests_alone(rest.get(..place.size).unwrap_or(rest));
    if first > 60 {
        return false;
    }
    let are_own = window.are_listed(first, digests.get(..count).unwrap_or(&digests));
    let Some(last) = digests.get_mut(count.wrapping_sub(1)) else {
        return are_own;
    };
    last[19] ^= 1;
    are_own && !window.are_listed(first, digests.get(..count).unwrap_or(&digests))
}

// Whether three files in a buffer have the digests that `sha1` gives their cuts.
fn are_of_sha1(buffer: &[u8], files: [Place; 3]) -> bool {
    let [a, b, c] = files;
    let mut window = CutWindow::new(PIECE);
    let first = put(&mut window, buffer, a);
    let second = put(&mut window, buffer, b);
    let third = put(&mut window, buffer, c);
    window.hash(buffer);
    has_digests(&window, first, buffer, a)
        && has_digests(&window, second, buffer, b)
        && has_digests(&window, third, buffer, c)
}

// The version 1 digests that `V1Cuts` gives a file.
fn file_alone(alloc: Global, file: &[u8]) -> Option<V1File> {
    let mut cuts = V1Cuts::new(alloc, PIECE as u64);
    cuts.push(file).ok()?;
    cuts.finish().ok()
}

// Whether a window has the version 1 digests that `V1Cuts` gives a file.
fn has_file(
    alloc: Global,
    window: &CutWindow,
    first: Option<usize>,
    buffer: &[u8],
    place: Place,
) -> bool
    requires { length_of_cuts window.now ≡ PIECE }
{
    let rest = buffer.get(place.start..).unwrap_or(&[]);
    let file = rest.get(..place.size).unwrap_or(rest);
    match (first, file_alone(alloc, file)) {
        (Some(first), Some(wanted)) if first <= 60 && file.len() <= 1024 => {
            let Ok(found) = window.file(alloc, first, file.len()) else {
                return false;
            };
            found.cuts == wanted.cuts && found.padded == wanted.padded
        }
        _ => false,
    }
}

// Whether three files in a buffer have the version 1 digests that `V1Cuts` gives them.
fn are_of_v1_cuts(alloc: Global, buffer: &[u8], files: [Place; 3]) -> bool {
    let [a, b, c] = files;
    let mut window = CutWindow::new(PIECE);
    let first = put(&mut window, buffer, a);
    let second = put(&mut window, buffer, b);
    let third = put(&mut window, buffer, c);
    window.hash_both(buffer);
    has_file(alloc, &window, first, buffer, a)
        && has_file(alloc, &window, second, buffer, b)
        && has_file(alloc, &window, third, buffer, c)
        && has_digests(&window, first, buffer, a)
        && has_digests(&window, second, buffer, b)
        && has_digests(&window, third, buffer, c)
}

// Sizes of three files: of no cut, of one by itself, of two to twelve side by side, and of one that
// is left over.
const SIZES: [[usize; 3]; 9] = [
    [0, 0, 0],
    [1, 0, 0],
    [256, 0, 0],
    [255, 1, 0],
    [257, 64, 256],
    [700, 513, 511],
    [768, 768, 512],
    [768, 768, 769],
    [1024, 1024, 1024],
];

#[test]
fn sizes_of_three_files(rt: HostRuntime) {
    let mut random = Random::new();
    let mut buffer = Vec::new(rt.alloc());
    random.fill(&mut buffer, 256).expect(&rt, "memory");
    for [a, b, c] in SIZES {
        let files = [
            Place { start: 0, size: a },
            Place {
                start: 100,
                size: b,
            },
            Place {
                start: 1024,
                size: c,
            },
        ];
        assert!(rt; are_of_sha1(&buffer, files), "{a}, {b} and {c} bytes");
        assert!(rt;
            are_of_v1_cuts(rt.alloc(), &buffer, files),
            "{a}, {b} and {c} bytes"
        );
    }
}

// 2,000 batches of three files anywhere in a buffer.
#[test]
fn random_files(rt: HostRuntime) {
    let mut random = Random::new();
    let mut buffer = Vec::new(rt.alloc());
    random.fill(&mut buffer, 256).expect(&rt, "memory");
    for batch in 0..2_000u32 {
        let files = [any(&mut random), any(&mut random), any(&mut random)];
        assert!(rt; are_of_sha1(&buffer, files), "batch {batch}");
        assert!(rt; are_of_v1_cuts(rt.alloc(), &buffer, files), "batch {batch}");
    }
}

// A file anywhere in the first half of a buffer of 2,048 bytes.
fn any(random: &mut Random) -> Place {
    Place {
        start: random.below(1024),
        size: random.below(1025),
    }
}
