//! Whether a glob leaves out a path.
//!
//! The path is read from its end to its start. A row has a mark for each part of the glob: whether
//! the parts from that one on match what has been read, up to its end or up to a `/`.
ghost use Rattle.std.specs.Prelude.{◌≡◌, [], ◌<◌, drop, length, map};
ghost use Rattle.globs.specs.Globs.{kind_of, leaves_out, may_follow};
ghost use Rattle.globs.specs.Matching.{found, mark_at_end, mark_before, marks_of_parts, with_none};

use crate::kinds::GlobPart;

// Whether this may stand behind a match: what is below it or, if it need not be a folder, nothing.
fn may_follow(folders_alone: bool, rest: &[char]) -> bool
    ensures { result ≡ may_follow folders_alone rest.now }
{
    match rest {
        [] => !folders_alone,
        [letter, ..] => *letter == '/',
    }
}

// A part's mark at the path's end. `here`: whether the parts behind it match there.
fn mark_at_end(part: &GlobPart, here: bool) -> bool
    ensures { result ≡ mark_at_end (kind_of part.now) here }
{
    match part {
        GlobPart::Run(_) => here,
        _ => false,
    }
}

// A part's mark at one more character. `here` and `behind`: whether the parts behind it match from
// this character on, and from the one behind it on.
fn mark_before(part: &GlobPart, letter: char, here: bool, behind: bool, was: bool) -> bool
    ensures { result ≡ mark_before (kind_of part.now) letter here behind was }
{
    match part {
        GlobPart::Letter(letters) => behind && letters.takes(letter),
        GlobPart::Run(letters) => here || (was && letters.takes(letter)),
        GlobPart::Folders => was || (behind && letter == '/'),
    }
}

// Whether the parts from this one on match, of which this is the mark. That of folders is of one at
// least.
fn with_none(part: &GlobPart, marked: bool, here: bool) -> bool
    ensures { result ≡ with_none (kind_of part.now) marked here }
{
    match part {
        GlobPart::Folders => marked || here,
        _ => marked,
    }
}

// Makes the row at the path's end. Answers whether all parts match there.
fn begin(folders_alone: bool, parts: &[GlobPart], row: &mut [bool]) -> bool
    requires { length row.old ≡ length parts.now }
    ensures row { row.new ≡ marks_of_parts folders_alone (map kind_of parts.now) [] }
    ensures found { result ≡ found folders_alone (map kind_of parts.now) [] }
{
    let mut here = !folders_alone;
    'parts: for done in 0..parts.len() {
        let place = parts.len() - 1 - done;
        let part = &parts[place];
        let mark = mark_at_end(part, here);
        row[place] = mark;
        here = with_none(part, mark, here);
    }
    here
}

// Makes the row at one more character, the first of these. Answers whether all parts match there.
fn step(folders_alone: bool, parts: &[GlobPart], row: &mut [bool], path: &[char]) -> bool
    requires len { length row.old ≡ length parts.now }
    requires some { 0 < length path.now }
    requires row { row.old
        ≡ marks_of_parts folders_alone (map kind_of parts.now) (drop 1 path.now) }
    ensures row { row.new ≡ marks_of_parts folders_alone (map kind_of parts.now) path.now }
    ensures found { result ≡ found folders_alone (map kind_of parts.now) path.now }
{
    let letter = path[0];
    let mut here = may_follow(folders_alone, path);
    let mut behind = may_follow(folders_alone, &path[1..]);
    'parts: for done in 0..parts.len() {
        let place = parts.len() - 1 - done;
        let part = &parts[place];
        let was = row[place];
        let mark = mark_before(part, letter, here, behind, was);
        row[place] = mark;
        here = with_none(part, mark, here);
        behind = with_none(part, was, behind);
    }
    here
}

/// Whether a glob of these parts matches this path or a folder above it. `row` is room for a mark
/// for each part.
pub(crate) fn leaves_out(
    folders_alone: bool,
    parts: &[GlobPart],
    row: &mut [bool],
    path: &[char],
) -> bool
    requires { length row.old ≡ length parts.now }
    ensures { result ≡ leaves_out (map kind_of parts.now, folders_alone) path.now }
{
    let mut is_found = begin(folders_alone, parts, row);
    'letters: for done in 0..path.len() {
        let start = path.len() - 1 - done;
        is_found = step(folders_alone, parts, row, &path[start..]);
    }
    is_found
}
