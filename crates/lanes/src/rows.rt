//! Rows of words turned into columns.
//!
//! A row is read at once. It has four words of a message, and four of the one four lanes on. So no
//! word passes from one half of a vector to the other, which would take longer.
//!
//! ```text
//!              lanes 0 to 3                lanes 4 to 7
//! rows[0]     words 0 to 3 of msg 0       words 0 to 3 of msg 4
//! rows[1]     words 0 to 3 of msg 1       words 0 to 3 of msg 5
//! ..
//! columns[0]  word 0 of msgs 0 to 3       word 0 of msgs 4 to 7
//! columns[1]  word 1 of msgs 0 to 3       word 1 of msgs 4 to 7
//! ..
//! ```

ghost use Rattle.std.specs.Prelude.{◌≡◌, ℕ, ◌+◌, ◌*◌, ◌<◌, ◌≤◌, ◌++◌, drop, length, slice_index, take};
ghost use Rattle.lanes.specs.Lanes.{first_pairs, first_words, last_word_pairs, last_words, word_at, word_in};
ghost use Rattle.lanes.specs.declared.words.TheConstants.{LANES};

use crate::words::{LANES, Words};
use std::simd::Simd;

// The shuffles below are written for as many.
const _: () = prove!(LANES == 8);

// The first two words of each half, of one and the other in turn.
#[inline(always)]
fn first_words(x: Words, y: Words) -> Words
    ensures { result ≡ first_words x y }
{
    x.shuffle(y, [0, 8, 1, 9, 4, 12, 5, 13])
}

// The last two words of each half, of one and the other in turn.
#[inline(always)]
fn last_words(x: Words, y: Words) -> Words
    ensures { result ≡ last_words x y }
{
    x.shuffle(y, [2, 10, 3, 11, 6, 14, 7, 15])
}

// The first pair of words of each half, of one and then of the other.
#[inline(always)]
fn first_pairs(x: Words, y: Words) -> Words
    ensures { result ≡ first_pairs x y }
{
    x.shuffle(y, [0, 1, 8, 9, 4, 5, 12, 13])
}

// The last pair of words of each half, of one and then of the other.
#[inline(always)]
fn last_pairs(x: Words, y: Words) -> Words
    ensures { result ≡ last_word_pairs x y }
{
    x.shuffle(y, [2, 3, 10, 11, 6, 7, 14, 15])
}

// In each half, the columns of four rows.
#[inline(always)]
fn turned(rows: [Words; 4]) -> [Words; 4]
    ensures first { (j k : ℕ) → j < 4 → k < 4 → word_in result k j ≡ word_in rows j k }
    ensures second { (j k : ℕ) → j < 4 → k < 4
        → word_in result k (4 + j) ≡ word_in rows j (4 + k) }
{
    let [a, b, c, d] = rows;
    let (first_ab, last_ab) = (first_words(a, b), last_words(a, b));
    let (first_cd, last_cd) = (first_words(c, d), last_words(c, d));
    [
        first_pairs(first_ab, first_cd),
        last_pairs(first_ab, first_cd),
        first_pairs(last_ab, last_cd),
        last_pairs(last_ab, last_cd),
    ]
}

// The words that these bytes spell, the high byte of each first.
#[inline(always)]
fn words_of(first: Simd<u8, 16>, second: Simd<u8, 16>) -> Words
    ensures { (k : ℕ) → k < LANES → slice_index result k ≡ word_at (first ++ second) (4 * k) }
{
    let reversed: Simd<u8, 32> = first.shuffle(
        second,
        [
            3, 2, 1, 0, 7, 6, 5, 4, 11, 10, 9, 8, 15, 14, 13, 12, 19, 18, 17, 16, 23, 22, 21, 20,
            27, 26, 25, 24, 31, 30, 29, 28,
        ],
    );
    Words::from_le_bytes(reversed)
}

// The sixteen bytes from this one on.
#[inline(always)]
fn bytes_at(buffer: &[u8], at: usize) -> Simd<u8, 16>
    requires { at + 16 ≤ length buffer.now }
    ensures { result ≡ take 16 (drop at buffer.now) }
{
    Simd::from_slice(&buffer[at..at + 16])
}

// The four words from one byte on, and the four from another on.
#[inline(always)]
fn row_at(buffer: &[u8], first: usize, second: usize) -> Words
    requires first { first + 16 ≤ length buffer.now }
    requires second { second + 16 ≤ length buffer.now }
    ensures first { (k : ℕ) → k < 4
        → slice_index result k ≡ word_at buffer.now (first + 4 * k) }
    ensures second { (k : ℕ) → k < 4
        → slice_index result (4 + k) ≡ word_at buffer.now (second + 4 * k) }
{
    words_of(bytes_at(buffer, first), bytes_at(buffer, second))
}

/// The four words from this byte on of each message. Conditions: they begin at these places of the
/// buffer, and have the words.
#[inline(always)]
pub(crate) fn four_words_at(buffer: &[u8], starts: &[usize; LANES], at: usize) -> [Words; 4]
    requires { (j : ℕ) → j < LANES → slice_index starts.now j + (at + 16) ≤ length buffer.now }
    ensures { (j k : ℕ) → j < LANES → k < 4
        → word_in result k j ≡ word_at buffer.now (slice_index starts.now j + (at + 4 * k)) }
{
    turned([
        row_at(buffer, starts[0] + at, starts[4] + at),
        row_at(buffer, starts[1] + at, starts[5] + at),
        row_at(buffer, starts[2] + at, starts[6] + at),
        row_at(buffer, starts[3] + at, starts[7] + at),
    ])
}
