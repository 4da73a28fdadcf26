//! Items: integers and byte strings.
ghost use Rattle.std.specs.Prelude.{◌≡◌, [], ◌∷◌, ◌<◌, ◌≤◌, ◌^◌, IsTrue, length, IfOk, IfSome, FitsSigned, MatchOption};
ghost use Rattle.std.specs.Option.{SomeIff, option_copied};
ghost use Rattle.std.specs.Int.{w64};
ghost use Rattle.std.specs.List.{prefix_len};
ghost use Rattle.std.specs.Str.Parse.{digits_value};
ghost use Rattle.benc.specs.Digits.{is_digit, digits_of_front, after_digits, in_range, signed, IsDigitRun};
ghost use Rattle.benc.specs.Spelling.{is_above};
ghost use Rattle.benc.specs.Items.{is_plain_run, integer_at, digits_at, string_at, key_at, ReadsAs};

use crate::fault::FaultKind;
use std::cmp::Ordering;

// Digits in the longest length of a byte string.
const MAX_DIGITS: usize = 10;

/// An integer, after its `i`.
pub(crate) fn integer(bytes: &[u8]) -> Result<(i64, &[u8]), FaultKind>
    ensures read { ReadsAs (λ x. (x.0, x.1.now)) result (integer_at bytes.now) }
    ensures fits { IfOk result (λ x. FitsSigned w64 x.0) }
    ensures shorter { IfOk result (λ x. length x.1.now ≤ length bytes.now) }
{
    match bytes {
        [b'-', rest @ ..] => digits(true, rest),
        _ => digits(false, bytes),
    }
}

/// A byte string, which begins with a digit.
pub(crate) fn string(bytes: &[u8]) -> Result<(&[u8], &[u8]), FaultKind>
    ensures read { ReadsAs (λ x. (x.0.now, x.1.now)) result (string_at bytes.now) }
    ensures shorter { IfOk result (λ x. length x.1.now < length bytes.now) }
{
    let (run, after) = split_digits(bytes);
    let [mark, rest @ ..] = after else {
        return Err(FaultKind::Truncated);
    };
    if *mark != b':' || !is_plain_number(run) || run.len() > MAX_DIGITS {
        return Err(FaultKind::BadLength);
    }
    match number(run) {
        Some(n) if n <= rest.len() as u64 => Ok(rest.split_at(n as usize)),
        _ => Err(FaultKind::Truncated),
    }
}

/// A key, which is above the one before it.
pub(crate) fn key<'a>(
    before: Option<&[u8]>,
    bytes: &'a [u8],
) -> Result<(&'a [u8], &'a [u8]), FaultKind>
    ensures read { let last = option_copied before.entry in
        ReadsAs (λ x. (x.0.now, x.1.now)) result (key_at last bytes.now) }
    ensures shorter { IfOk result (λ x. length x.1.now < length bytes.now) }
{
    match bytes {
        [] => Err(FaultKind::Truncated),
        [first, ..] => {
            if !first.is_ascii_digit() {
                return Err(FaultKind::BadStart);
            }
            let (key, rest) = string(bytes)?;
            if !is_above(key, before) {
                return Err(FaultKind::KeyOrder);
            }
            Ok((key, rest))
        }
    }
}

/// Whether a key is above the one before it, if there is one.
pub(crate) fn is_above(key: &[u8], before: Option<&[u8]>) -> bool
    ensures { result ≡ is_above key.now (option_copied before.entry) }
{
    match before {
        None => true,
        Some(last) => last.cmp(key) == Ordering::Less,
    }
}

/// The first byte, and those after it.
pub(crate) fn split_front(bytes: &[u8]) -> Option<(u8, &[u8])>
    ensures { MatchOption result (bytes.now ≡ []) (λ x. bytes.now ≡ x.0 ∷ x.1.now) }
{
    match bytes {
        [] => None,
        [first, rest @ ..] => Some((*first, rest)),
    }
}

// An integer, after its sign.
fn digits(minus: bool, bytes: &[u8]) -> Result<(i64, &[u8]), FaultKind>
    ensures read { ReadsAs (λ x. (x.0, x.1.now)) result (digits_at minus bytes.now) }
    ensures fits { IfOk result (λ x. FitsSigned w64 x.0) }
    ensures shorter { IfOk result (λ x. length x.1.now ≤ length bytes.now) }
{
    let (run, after) = split_digits(bytes);
    let [mark, rest @ ..] = after else {
        return Err(FaultKind::Truncated);
    };
    if *mark != b'e' || !is_plain_number(run) || (minus && run[0] == b'0') {
        return Err(FaultKind::BadInteger);
    }
    match signed_number(minus, run) {
        Some(n) => Ok((n, rest)),
        None => Err(FaultKind::IntegerRange),
    }
}

// The signed number of 64 bits with that sign and digits.
fn signed_number(minus: bool, run: &[u8]) -> Option<i64>
    requires { IsDigitRun run.now }
    ensures value { let n = digits_value 10 run.now in
        SomeIff result (IsTrue (in_range minus n)) (signed minus n) }
    ensures fits { IfSome result (λ n. FitsSigned w64 n) }
{
    let n = number(run)?;
    if !minus {
        i64::try_from(n).ok()
    } else if n == 0 {
        Some(0)
    } else if n - 1 < 1 << 63 {
        Some(-1 - (n - 1) as i64)
    } else {
        None
    }
}

// The number that digits write, if it fits 64 bits.
fn number(run: &[u8]) -> Option<u64>
    requires { IsDigitRun run.now }
    ensures { SomeIff result (digits_value 10 run.now < 2 ^ 64) (digits_value 10 run.now) }
{
    let mut n: u64 = 0;
    for c in run {
        n = n.checked_mul(10)?.checked_add(u64::from(*c - b'0'))?;
    }
    Some(n)
}

// Digits with no leading zero, except for `0` itself.
fn is_plain_number(run: &[u8]) -> bool
    ensures { result ≡ is_plain_run run.now }
{
    match run {
        [] => false,
        [first, ..] => *first != b'0' || run.len() == 1,
    }
}

// The longest run of digits at the front, and what follows it.
fn split_digits(bytes: &[u8]) -> (&[u8], &[u8])
    ensures run { result.0.now ≡ digits_of_front bytes.now }
    ensures rest { result.1.now ≡ after_digits bytes.now }
    ensures digits { IsDigitRun result.0.now }
{
    bytes.split_at(digit_count(bytes))
}

// How many digits stand at the front.
fn digit_count(bytes: &[u8]) -> usize
    ensures value { result ≡ prefix_len is_digit bytes.now }
    ensures bound { result ≤ length bytes.now }
{
    for (i, c) in bytes.iter().enumerate() {
        if !c.is_ascii_digit() {
            return i;
        }
    }
    bytes.len()
}
