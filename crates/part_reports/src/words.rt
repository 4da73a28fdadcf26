//! The words of a line, read again: numbers, and verdicts by the table of lines.
ghost use Rattle.std.specs.Char.{is_ascii_digit};
ghost use Rattle.std.specs.List.{list_all, prefix_len};
ghost use Rattle.std.specs.Prelude.{◌≡◌, ℕ, ◌<◌, ◌^◌, List, ◌∷◌, ◌++◌, decimal, slice_get, MatchOption, Some, false, true, ◌≤◌, length, option_map};
ghost use Rattle.folders.specs.declared.report.FileVerdict.{FileVerdict as OfFile};
ghost use Rattle.folders.specs.declared.report.V1Verdict.{V1Verdict as OfV1};
ghost use Rattle.lines.specs.Reading.{BeginsWith};
ghost use Rattle.opening.specs.Seen.{file_entry};
ghost use Rattle.folders.specs.Printed.{verdict_row, version1_rows};
ghost use Rattle.lines.specs.Rows.{spell};
ghost use Rattle.lines.specs.Texts.{text_of};
ghost use Rattle.part_reports.specs.Lines.{IsSmall, IsSmallV1};
ghost use Rattle.part_reports.specs.Scan.{IsFirstNumber, is_no_digit};

use folders::{FileVerdict, V1Verdict, strip_verdict, strip_version1};
use opening::File;
use std::str;

/// The verdict of the line of a file that stands at the front, and what stands behind the line.
pub(crate) fn file_verdict<'a>(file: &File<'_>, text: &'a [u8]) -> Option<(FileVerdict, &'a [u8])>
    ensures { let f = file_entry file.now in MatchOption result
        ((v : OfFile) → IsSmall v → BeginsWith (text_of (verdict_row v f)) text.now → ⊥)
        (λ x. IsSmall x.0 × (text.now ≡ text_of (verdict_row x.0 f) ++ x.1.now)) }
{
    let verdicts = [
        FileVerdict::Good,
        FileVerdict::Missing,
        FileVerdict::Unreadable,
        FileVerdict::WrongLength,
        FileVerdict::Bad(number_or_zero(text)),
    ];
    one_of(&verdicts, file, text)
}

// The first of these verdicts whose line stands at the front, and what stands behind the line.
fn one_of<'a>(
    verdicts: &[FileVerdict],
    file: &File<'_>,
    text: &'a [u8],
) -> Option<(FileVerdict, &'a [u8])>
    requires { (n : ℕ) (v : OfFile) → slice_get verdicts.now n ≡ Some v → IsSmall v }
    ensures { let f = file_entry file.now in MatchOption result
        ((n : ℕ) (v : OfFile) → slice_get verdicts.now n ≡ Some v
        → BeginsWith (text_of (verdict_row v f)) text.now → ⊥)
        (λ x. IsSmall x.0 × (text.now ≡ text_of (verdict_row x.0 f) ++ x.1.now)) }
{
    'verdicts: for verdict in verdicts {
        if let Some(rest) = strip_verdict(*verdict, file, text) {
            return Some((*verdict, rest));
        }
    }
    None
}

/// The verdict of the line of the version 1 pieces that stands at the front.
pub(crate) fn v1_verdict(text: &[u8]) -> V1Verdict
    ensures { (v : OfV1) (more : List ℕ) → IsSmallV1 v
        → text.now ≡ spell text_of (version1_rows (Some v)) ++ more → result ≡ v }
{
    if strip_version1(&Some(V1Verdict::Good), text).is_some() {
        V1Verdict::Good
    } else if strip_version1(&Some(V1Verdict::NotChecked), text).is_some() {
        V1Verdict::NotChecked
    } else {
        V1Verdict::Bad(second_or_zero(text))
    }
}

// The first number in the first line of a text, or 0.
fn number_or_zero(text: &[u8]) -> u64
    ensures small { result < 2 ^ 64 }
    ensures number { IsFirstNumber text.now result }
{
    match first_number(text) {
        Some((number, _)) => number,
        None => 0,
    }
}

// The second number in the first line of a text, or 0: in the line of the version 1 pieces it is
// the one behind `v1`.
fn second_or_zero(text: &[u8]) -> u64
    ensures small { result < 2 ^ 64 }
    ensures number { (front more : List ℕ) (n c : ℕ) → list_all is_no_digit front ≡ true
        → n < 2 ^ 64 → is_ascii_digit c ≡ false → text.now ≡ front ++ (decimal n ++ c ∷ more)
        → IsFirstNumber (c ∷ more) result }
{
    match first_number(text) {
        Some((_, behind)) => number_or_zero(behind),
        None => 0,
    }
}

/// The first number in the first line of a text, and what follows its digits. Which words stand
/// before it is for the table of lines to say.
pub(crate) fn first_number(text: &[u8]) -> Option<(u64, &[u8])>
    ensures { (front : List ℕ) (n c : ℕ) (more : List ℕ) → list_all is_no_digit front ≡ true
        → n < 2 ^ 64 → is_ascii_digit c ≡ false → text.now ≡ front ++ (decimal n ++ c ∷ more)
        → option_map {U = ℕ × List ℕ} (λ x. (x.0, x.1.now)) result ≡ Some (n, c ∷ more) }
{
    split_number(&text[first_digit(text)..])
}

// The number at the front, and what follows its digits.
fn split_number(text: &[u8]) -> Option<(u64, &[u8])>
    ensures { (n c : ℕ) (more : List ℕ) → n < 2 ^ 64 → is_ascii_digit c ≡ false
        → text.now ≡ decimal n ++ c ∷ more
        → option_map {U = ℕ × List ℕ} (λ x. (x.0, x.1.now)) result ≡ Some (n, c ∷ more) }
{
    let (digits, rest) = text.split_at(digit_count(text));
    let number = number(digits)?;
    Some((number, rest))
}

// The number that these digits write, if it fits 64 bits.
fn number(digits: &[u8]) -> Option<u64>
    ensures { (n : ℕ) → n < 2 ^ 64 → digits.now ≡ decimal n → result ≡ Some n }
{
    match str::from_utf8(digits) {
        Ok(text) => text.parse::<u64>().ok(),
        Err(_) => None,
    }
}

// How many bytes stand before the first digit, or before the end of the line if it has none.
fn first_digit(text: &[u8]) -> usize
    ensures value { result ≡ prefix_len is_no_digit text.now }
    ensures bound { result ≤ length text.now }
{
    'bytes: for (i, byte) in text.iter().enumerate() {
        if byte.is_ascii_digit() || *byte == b'\n' {
            return i;
        }
    }
    text.len()
}

// How many digits stand at the front.
fn digit_count(text: &[u8]) -> usize
    ensures value { result ≡ prefix_len is_ascii_digit text.now }
    ensures bound { result ≤ length text.now }
{
    'bytes: for (i, byte) in text.iter().enumerate() {
        if !byte.is_ascii_digit() {
            return i;
        }
    }
    text.len()
}
