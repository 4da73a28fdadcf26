//! The lines of a report behind its first one, read again and joined to what other parts say.
ghost use Rattle.std.specs.List.Sorted.{IsNonDecreasingBy, IsPartitionPoint};
ghost use Rattle.std.specs.Prelude.{◌≡◌, ◌+◌, ◌<◌, ◌≤◌, length, is_some, MatchOption, Some, ◌↔◌, IsTrue, true, ℕ, List, ◌++◌, Option, ◌&&◌};
ghost use Rattle.folders.specs.Verdicts.{IsFileOf, is_good, is_whole, stream_is_good};
ghost use Rattle.folders.specs.declared.report.V1Verdict.{V1Verdict as OfV1};
ghost use Rattle.opening.specs.Seen.{file_entry};
ghost use Rattle.folders.specs.Printed.{version1_rows};
ghost use Rattle.lines.specs.Rows.{spell};
ghost use Rattle.lines.specs.Texts.{text_of};
ghost use Rattle.part_reports.specs.Lines.{AreOff, HasLines, JoinsLines, BeginsWithFile, HasLine, ReadsFileLine, ReadsLine, HasEnd, IsSmallV1, ReadsEnd, SaysEnd};
ghost use Rattle.part_reports.specs.Marks.{HasMarkRoom};
ghost use Rattle.part_reports.specs.Reported.{CanSay, IsPieceIn};
ghost use Rattle.parts.specs.PartLines.{has_place, part_answer_row};
ghost use Rattle.parts.specs.Parts.{place_count, piece_count as pieces_in};
ghost use Rattle.parts.specs.Worse.{worse_v1};

use crate::kind::Kind;
use crate::marked_report::{BadPieces, MarkedReport};
use crate::runs::read_runs;
use crate::words::{file_verdict, v1_verdict};
use folders::{FileVerdict, V1Verdict, strip_version1};
use opening::{File, Torrent};
use parts::{Places, piece_count, strip_answer, touches, worse, worse_v1};

/// Joins to a report what a part with these places says in the lines behind the first one of its
/// own, of this kind. Each line is compared with those that may stand there: only a text that is
/// printed so, to the byte, is a report. A file that has no place in the part is good. Only the
/// files that may have one are looked at. `None`: the lines are not what such a part prints of
/// verdicts that it can report; some verdicts may have been joined. Conditions: the torrent has
/// this many pieces, and the report is of it, with a mark for each piece if bad ones are told of.
pub(crate) fn join_lines(
    torrent: &Torrent<'_>,
    kind: Kind,
    places: Places,
    pieces: u64,
    lines: &[u8],
    joined: &mut MarkedReport,
) -> Option<()>
    requires pieces { pieces + 1 ≡ place_count torrent.now }
    requires files { length joined.old.report.files.items ≡ length torrent.now.files }
    requires hybrid { is_some joined.old.report.v1 ≡ is_some torrent.now.v1 }
    requires room { HasMarkRoom kind pieces joined.old.bad }
    ensures { MatchOption result (HasLines kind torrent.now places lines.now → ⊥)
        (λ u. JoinsLines kind torrent.now places lines.now joined.old joined.new) }
{
    torrent.recall_sound();
    let files = torrent.files();
    let (first, end) = window(torrent, places);
    let mut worst = FileVerdict::Good;
    let mut rest = lines;
    'files: for i in first..end {
        let file = &files[i];
        let bad = &mut joined.bad;
        let (verdict, behind) = read_file(torrent, kind, file, places, rest, bad)?;
        let worse_one = worse(joined.report.files[i], verdict);
        joined.report.files[i] = worse_one;
        worst = worse(worst, verdict);
        rest = behind;
    }
    let v1 = read_end(torrent, places, pieces, worst, rest)?;
    join_v1(&mut joined.report.v1, v1);
    Some(())
}

// Joins what one more part says of the version 1 pieces.
fn join_v1(joined: &mut Option<V1Verdict>, part: Option<V1Verdict>)
    requires { is_some joined.old ≡ is_some part }
    ensures hybrid { is_some joined.new ≡ is_some joined.old }
    ensures version1 { (a b : OfV1) → joined.old ≡ Some a → part ≡ Some b
        → joined.new ≡ Some (worse_v1 a b) }
{
    if let (Some(a), Some(b)) = (*joined, part) {
        *joined = Some(worse_v1(a, b));
    }
}

// Of the files that may have one of these places the first, and the one after the last: from the
// last that begins before them to the first that begins behind them.
fn window(torrent: &Torrent<'_>, places: Places) -> (usize, usize)
    ensures first { result.0 ≤ length torrent.now.files }
    ensures end { result.1 ≤ length torrent.now.files }
    ensures before { AreOff torrent.now places (λ n. n < result.0) }
    ensures behind { AreOff torrent.now places (λ n. result.1 ≤ n) }
{
    torrent.recall_sound();
    let files = torrent.files();
    let begun = begun_before(files, places.from);
    let first = begun.saturating_sub(1);
    let end = begun_before(files, places.to);
    (first, end)
}

// How many files begin before this place, if first pieces ascend.
fn begun_before(files: &[File<'_>], place: u64) -> usize
    ensures bound { result ≤ length files.now }
    ensures point { IsNonDecreasingBy (λ f. f.first_piece) files.now
        → IsPartitionPoint (λ f. f.first_piece < place)
        (λ f. place ≤ f.first_piece) files.now result }
{
    files.partition_point(|file| file.first_piece < place)
}

// The verdict on a file of a part with these places, and what follows all that its report, of
// this kind, tells of the file; the pieces that it tells are bad are marked. Of a file that has no
// place there the verdict is `Good`. `None`: nothing that such a report can tell of the file
// stands at the front. Conditions: the torrent has the file, and there is a mark for each of its
// pieces if bad ones are told of.
fn read_file<'a>(
    torrent: &Torrent<'_>,
    kind: Kind,
    file: &File<'_>,
    places: Places,
    text: &'a [u8],
    bad: &mut BadPieces,
) -> Option<(FileVerdict, &'a [u8])>
    requires file { IsFileOf torrent.now (file_entry file.now) }
    requires room { let f = file_entry file.now in
        HasMarkRoom kind (f.first_piece + pieces_in torrent.now f) bad.old }
    ensures { let f = file_entry file.now in
        MatchOption result (BeginsWithFile kind torrent.now places f text.now → ⊥)
        (λ x. ReadsFileLine kind torrent.now places f text.now x.0 x.1.now bad.old bad.new) }
{
    torrent.recall_sound();
    let (verdict, rest) = read_verdict(torrent, file, places, text)?;
    match kind {
        Kind::Plain => Some((verdict, rest)),
        Kind::Marked => match read_runs(torrent, file, places, verdict, rest, bad) {
            Some(behind) => Some((verdict, behind)),
            None => None,
        },
    }
}

// The verdict on a file, and what follows its line, if it has one.
fn read_verdict<'a>(
    torrent: &Torrent<'_>,
    file: &File<'_>,
    places: Places,
    text: &'a [u8],
) -> Option<(FileVerdict, &'a [u8])>
    requires { IsFileOf torrent.now (file_entry file.now) }
    ensures { let f = file_entry file.now in let held = has_place torrent.now places f in
        MatchOption result (HasLine torrent.now places f held text.now → ⊥)
        (λ x. ReadsLine torrent.now places f held text.now x.0 x.1.now) }
{
    if touches(torrent, file, places) {
        read_line(torrent, file, places, text)
    } else {
        Some((FileVerdict::Good, text))
    }
}

// The verdict of the line of a file, and what follows the line.
fn read_line<'a>(
    torrent: &Torrent<'_>,
    file: &File<'_>,
    places: Places,
    text: &'a [u8],
) -> Option<(FileVerdict, &'a [u8])>
    requires file { IsFileOf torrent.now (file_entry file.now) }
    requires held { has_place torrent.now places (file_entry file.now) ≡ true }
    ensures { let f = file_entry file.now in
        MatchOption result (HasLine torrent.now places f true text.now → ⊥)
        (λ x. ReadsLine torrent.now places f true text.now x.0 x.1.now) }
{
    torrent.recall_sound();
    let (verdict, rest) = file_verdict(file, text)?;
    if can_say(torrent, file, places, verdict) {
        Some((verdict, rest))
    } else {
        None
    }
}

// Whether a part with these places, of which the file has one, can say this of the file.
fn can_say(torrent: &Torrent<'_>, file: &File<'_>, places: Places, verdict: FileVerdict) -> bool
    requires file { IsFileOf torrent.now (file_entry file.now) }
    requires held { has_place torrent.now places (file_entry file.now) ≡ true }
    ensures { IsTrue result ↔ CanSay torrent.now places (file_entry file.now) verdict }
{
    match verdict {
        FileVerdict::Bad(piece) => is_piece(torrent, file, places, piece),
        _ => true,
    }
}

// Whether this piece of the torrent is the file's, and among these places.
fn is_piece(torrent: &Torrent<'_>, file: &File<'_>, places: Places, piece: u64) -> bool
    requires { IsFileOf torrent.now (file_entry file.now) }
    ensures { IsTrue result ↔ IsPieceIn torrent.now places (file_entry file.now) piece }
{
    torrent.recall_sound();
    let end = file.first_piece + piece_count(torrent, file);
    let from = places.from.max(file.first_piece);
    let to = places.to.min(end);
    is_between(from, piece, to)
}

// The verdict on the version 1 pieces of a hybrid, which the last lines of a report say: it is of
// a part with these places, and this is the worst of its verdicts on files. `None` if these are
// not its last lines. Condition: the torrent has this many pieces.
fn read_end(
    torrent: &Torrent<'_>,
    places: Places,
    pieces: u64,
    worst: FileVerdict,
    text: &[u8],
) -> Option<Option<V1Verdict>>
    requires { pieces + 1 ≡ place_count torrent.now }
    ensures { MatchOption result (HasEnd torrent.now places worst text.now → ⊥)
        (ReadsEnd torrent.now places worst text.now) }
{
    let v1 = read_v1(torrent, text);
    if !can_say_of_stream(places, pieces, worst, v1) {
        return None;
    }
    let answer = strip_version1(&v1, text)?;
    if ends_with(yes(worst, v1), answer) {
        Some(v1)
    } else {
        None
    }
}

// The verdict on the version 1 pieces of a hybrid, whose line stands at the front.
fn read_v1(torrent: &Torrent<'_>, text: &[u8]) -> Option<V1Verdict>
    ensures hybrid { is_some result ≡ is_some torrent.now.v1 }
    ensures whole { (v1 : Option OfV1) (more : List ℕ) → is_some v1 ≡ is_some torrent.now.v1
        → ((v : OfV1) → v1 ≡ Some v → IsSmallV1 v)
        → text.now ≡ spell text_of (version1_rows v1) ++ more → result ≡ v1 }
{
    match torrent.v1() {
        Some(_) => Some(v1_verdict(text)),
        None => None,
    }
}

// Whether a part with these places can say this of the version 1 pieces, beside this worst verdict
// on its files.
fn can_say_of_stream(places: Places, pieces: u64, worst: FileVerdict, v1: Option<V1Verdict>) -> bool
    ensures { IsTrue result ↔ SaysEnd places pieces worst v1 }
{
    match v1 {
        None => true,
        Some(verdict) => can_say_of_hybrid(places, pieces, worst, verdict),
    }
}

// The same of a hybrid.
fn can_say_of_hybrid(places: Places, pieces: u64, worst: FileVerdict, verdict: V1Verdict) -> bool
    ensures { IsTrue result ↔ SaysEnd places pieces worst (Some verdict) }
{
    match verdict {
        V1Verdict::NotChecked => !is_whole(worst),
        V1Verdict::Good => is_whole(worst),
        V1Verdict::Bad(piece) => can_say_bad(places, pieces, worst, piece),
    }
}

// The same of the verdict that this piece is the first bad one.
fn can_say_bad(places: Places, pieces: u64, worst: FileVerdict, piece: u64) -> bool
    ensures { IsTrue result ↔ SaysEnd places pieces worst (Some (V1Verdict.Bad piece)) }
{
    let to = places.to.min(pieces);
    is_whole(worst) && is_between(places.from, piece, to)
}

// Whether a file with this verdict was read whole, and has the right length.
fn is_whole(verdict: FileVerdict) -> bool
    ensures { result ≡ is_whole verdict }
{
    matches!(verdict, FileVerdict::Good | FileVerdict::Bad(_))
}

// Whether files with this worst verdict and these version 1 pieces are all good.
fn yes(worst: FileVerdict, v1: Option<V1Verdict>) -> bool
    ensures { result ≡ is_good worst && stream_is_good v1 }
{
    match (worst, v1) {
        (FileVerdict::Good, None | Some(V1Verdict::Good)) => true,
        _ => false,
    }
}

// Whether the last line stands there, and nothing behind it.
fn ends_with(yes: bool, text: &[u8]) -> bool
    ensures { IsTrue result ↔ (text.now ≡ text_of (part_answer_row yes)) }
{
    match strip_answer(yes, text) {
        Some(rest) => rest.is_empty(),
        None => false,
    }
}

// Whether a number is one from the first of these two up to the second.
fn is_between(from: u64, number: u64, to: u64) -> bool
    ensures { IsTrue result ↔ ((from ≤ number) × (number < to)) }
{
    from <= number && number < to
}
