//! Reading a glob.
ghost use Rattle.std.specs.Prelude.{◌≡◌, true, drop, length, map, option_map};
ghost use Rattle.globs.specs.Globs.{choice_of, kind_of, letter, whole_of};
ghost use Rattle.globs.specs.Reading.{begins, bracketed_at, escaped_at, front, letter_at, members};
ghost use Rattle.globs.specs.Reading.{part_at, part_from, put, range_at, range_from, skip_stars, stars_at};
ghost use Rattle.globs.specs.Texts.{AnswersAs, from_top, glob_of, has_inner_slash, is_slash, parts_at};
ghost use Rattle.globs.specs.Texts.{seen_letter, seen_part, seen_range, seen_ranges};
ghost use Rattle.globs.specs.declared.reading.ReadFault.TheVariants as fault;

use crate::kinds::{Brackets, Glob, GlobPart, Letters, Range};
use std::alloc::{AllocError, AllocFailed, Global};

/// Why a glob was not read.
#[derive(Drop)]
pub(crate) enum ReadFault {
    /// It is none: it is empty, or it ends in a `\`, in an open `[..]`, or in a range that runs
    /// backwards.
    Malformed,
    /// Out of memory.
    NoMemory,
}

impl From<AllocError> for ReadFault {
    ghost from_gives = { λ _ f. f ≡ fault.NoMemory };

    fn from(_error: AllocError) -> ReadFault {
        ReadFault::NoMemory
    }
}

impl<T: Drop> From<AllocFailed<T>> for ReadFault {
    ghost from_gives = { λ _ f. f ≡ fault.NoMemory };

    fn from(_error: AllocFailed<T>) -> ReadFault {
        ReadFault::NoMemory
    }
}

// A part, whether the next one begins a component, and what stands behind it.
#[derive(Drop)]
struct Read<'a> {
    part: GlobPart,
    starts: bool,
    rest: &'a [char],
}

/// Reads a glob.
///
/// # Errors
///
/// `Malformed` if it is none; `NoMemory`.
pub(crate) fn read_glob(alloc: Global, text: &[char]) -> Result<Glob, ReadFault>
    ensures { AnswersAs whole_of result (glob_of text.now) }
{
    let mut parts = Vec::new(alloc);
    if begins(text, '/') {
        return from_top(alloc, parts, tail(text));
    }
    if has_inner_slash(text) {
        return from_top(alloc, parts, text);
    }
    parts.push(GlobPart::Folders)?;
    from_top(alloc, parts, text)
}

// The glob of a text that is not empty, behind the parts before it.
fn from_top(alloc: Global, parts: Vec<GlobPart>, text: &[char]) -> Result<Glob, ReadFault>
    ensures { AnswersAs whole_of result (from_top (map kind_of parts.items) text.now) }
{
    if text.is_empty() {
        return Err(ReadFault::Malformed);
    }
    parts_from(alloc, parts, text)
}

// The parts of a text, behind those before it.
fn parts_from(alloc: Global, mut parts: Vec<GlobPart>, text: &[char]) -> Result<Glob, ReadFault>
    ensures { AnswersAs whole_of result
        (option_map (put (map kind_of parts.items)) (parts_at (length text.now) true text.now)) }
{
    let mut starts = true;
    let mut rest = text;
    'parts: for done in 0..text.len() {
        if rest.is_empty() || is_slash(rest) {
            break;
        }
        let read = part_at(alloc, starts, rest)?;
        parts.push(read.part)?;
        starts = read.starts;
        rest = read.rest;
    }
    Ok(Glob {
        parts,
        folders_alone: is_slash(rest),
    })
}

// Whether a text has a `/` that is not at its end.
fn has_inner_slash(text: &[char]) -> bool
    ensures { result ≡ has_inner_slash text.now }
{
    'places: for place in 0..text.len() {
        if text[place] == '/' && place + 1 < text.len() {
            return true;
        }
    }
    false
}

// Whether a text is a `/` alone.
fn is_slash(text: &[char]) -> bool
    ensures { result ≡ is_slash text.now }
{
    begins(text, '/') && tail(text).is_empty()
}

// The part that a text begins with. `starts`: it begins a component.
fn part_at(alloc: Global, starts: bool, text: &[char]) -> Result<Read<'_>, ReadFault>
    ensures { AnswersAs seen_part result (part_at starts text.now) }
{
    match front(text) {
        Some((letter, rest)) => part_from(alloc, starts, letter, rest),
        None => Err(ReadFault::Malformed),
    }
}

// The part that begins with this character.
fn part_from(
    alloc: Global,
    starts: bool,
    letter: char,
    rest: &[char],
) -> Result<Read<'_>, ReadFault>
    ensures { AnswersAs seen_part result (part_from starts (letter, rest.now)) }
{
    match letter {
        '*' => Ok(stars_at(starts, rest)),
        '[' => bracketed_at(alloc, rest),
        '\\' => escaped_at(rest),
        '?' => Ok(one_of(Letters::InName, false, rest)),
        _ => Ok(one_of(Letters::One(letter), letter == '/', rest)),
    }
}

// A part that takes one of these characters. `starts`: the next one begins a component.
fn one_of(letters: Letters, starts: bool, rest: &[char]) -> Read<'_>
    ensures { seen_part result ≡ (letter (choice_of letters), starts, rest.now) }
{
    Read {
        part: GlobPart::Letter(letters),
        starts,
        rest,
    }
}

// What stars mean, of which the first is taken already.
fn stars_at(starts: bool, text: &[char]) -> Read<'_>
    ensures { seen_part result ≡ stars_at starts text.now }
{
    let rest = skip_stars(text);
    if !begins(text, '*') {
        Read {
            part: GlobPart::Run(Letters::InName),
            starts: false,
            rest: text,
        }
    } else if starts && begins(rest, '/') {
        Read {
            part: GlobPart::Folders,
            starts: true,
            rest: tail(rest),
        }
    } else {
        Read {
            part: GlobPart::Run(Letters::Any),
            starts: false,
            rest,
        }
    }
}

// What stands behind the stars.
fn skip_stars(text: &[char]) -> &[char]
    ensures { result.now ≡ skip_stars text.now }
{
    'stars: for place in 0..text.len() {
        if text[place] != '*' {
            return &text[place..];
        }
    }
    &text[text.len()..]
}

// The character behind a backslash.
fn escaped_at(text: &[char]) -> Result<Read<'_>, ReadFault>
    ensures { AnswersAs seen_part result (escaped_at text.now) }
{
    match front(text) {
        Some((letter, rest)) => Ok(one_of(Letters::One(letter), false, rest)),
        None => Err(ReadFault::Malformed),
    }
}

// The part in brackets, of which the `[` is taken already.
fn bracketed_at(alloc: Global, text: &[char]) -> Result<Read<'_>, ReadFault>
    ensures { AnswersAs seen_part result (bracketed_at text.now) }
{
    let is_other = begins(text, '!') || begins(text, '^');
    let inner = if is_other { tail(text) } else { text };
    let (ranges, rest) = members(alloc, inner)?;
    let brackets = Brackets { is_other, ranges };
    Ok(one_of(Letters::Bracketed(brackets), false, rest))
}

// The ranges up to the `]`, which is one itself if it comes first, and what stands behind it.
fn members(alloc: Global, text: &[char]) -> Result<(Vec<Range>, &[char]), ReadFault>
    ensures { AnswersAs seen_ranges result (members text.now) }
{
    let Some((first, mut rest)) = range_at(text) else {
        return Err(ReadFault::Malformed);
    };
    let mut ranges = Vec::new(alloc);
    ranges.push(first)?;
    'members: for done in 0..rest.len() {
        if begins(rest, ']') {
            return Ok((ranges, tail(rest)));
        }
        let Some((range, more)) = range_at(rest) else {
            return Err(ReadFault::Malformed);
        };
        ranges.push(range)?;
        rest = more;
    }
    Err(ReadFault::Malformed)
}

// A character or a range of them in brackets.
fn range_at(text: &[char]) -> Option<(Range, &[char])>
    ensures { seen_range result ≡ range_at text.now }
{
    let (first, rest) = letter_at(text)?;
    range_from(first, rest)
}

// The range that begins with this character, of which the rest of the text may have the last.
fn range_from(first: char, text: &[char]) -> Option<(Range, &[char])>
    ensures { seen_range result ≡ range_from first text.now }
{
    if begins(text, '-') && !begins(tail(text), ']') {
        let (last, rest) = letter_at(tail(text))?;
        if first <= last {
            Some((Range { first, last }, rest))
        } else {
            None
        }
    } else {
        Some((Range { first, last: first }, text))
    }
}

// The first character, or the one behind a backslash, and what stands behind it.
fn letter_at(text: &[char]) -> Option<(char, &[char])>
    ensures { seen_letter result ≡ letter_at text.now }
{
    if begins(text, '\\') {
        front(tail(text))
    } else {
        front(text)
    }
}

// The first character, and what stands behind it.
fn front(text: &[char]) -> Option<(char, &[char])>
    ensures { seen_letter result ≡ front text.now }
{
    match text {
        [] => None,
        [letter, rest @ ..] => Some((*letter, rest)),
    }
}

// A text without its first character.
fn tail(text: &[char]) -> &[char]
    ensures { result.now ≡ drop 1 text.now }
{
    match text {
        [] => text,
        [_, rest @ ..] => rest,
    }
}

// Whether a text begins with this character.
fn begins(text: &[char], letter: char) -> bool
    ensures { result ≡ begins letter text.now }
{
    match text {
        [] => false,
        [first, ..] => *first == letter,
    }
}
