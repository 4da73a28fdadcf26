//! The lines of the runs of bad pieces of a file in a report, read again.
ghost use Rattle.std.specs.Prelude.{◌≡◌, ◌↔◌, ℕ, ◌+◌, ◌-◌, ◌*◌, ◌<◌, ◌≤◌, List, ◌++◌, length, IsTrue, MatchOption};
ghost use Rattle.folders.specs.Verdicts.{IsFileOf};
ghost use Rattle.opening.specs.Description.{FileEntry};
ghost use Rattle.opening.specs.Seen.{file_entry};
ghost use Rattle.parts.specs.Parts.{piece_count as pieces_in};
ghost use Rattle.parts.specs.Runs.{Run, run_row};
ghost use Rattle.parts.specs.Spans.{end_in, first_in};
ghost use Rattle.lines.specs.Texts.{text_of};
ghost use Rattle.part_reports.specs.Lines.{HasRuns, ReadsRuns};
ghost use Rattle.part_reports.specs.Marks.{BeginsAtBad};
ghost use Rattle.part_reports.specs.RunLines.{HasNumbers, HasOneRun, IsRunWithin, ReadsAll, first_bad};

use crate::marked_report::BadPieces;
use crate::words::first_number;
use folders::FileVerdict;
use opening::{File, Torrent};
use parts::{Places, has_runs, piece_count, strip_run};

/// What follows the lines of the runs of bad pieces of a file with this verdict, in the report of a
/// part with these places; the pieces in them are marked. `None` if they do not begin with the
/// piece that the verdict names. Conditions: the torrent has the file, and there is a mark for each
/// of its pieces.
pub(crate) fn read_runs<'a>(
    torrent: &Torrent<'_>,
    file: &File<'_>,
    places: Places,
    verdict: FileVerdict,
    text: &'a [u8],
    bad: &mut BadPieces,
) -> Option<&'a [u8]>
    requires file { IsFileOf torrent.now (file_entry file.now) }
    requires room { let f = file_entry file.now in
        f.first_piece + pieces_in torrent.now f ≤ 8 * length bad.old.bits.items }
    ensures { let f = file_entry file.now in
        MatchOption result (HasRuns torrent.now places f verdict text.now → ⊥)
        (λ rest. ReadsRuns torrent.now places f verdict text.now rest.now bad.old bad.new) }
{
    torrent.recall_sound();
    if !has_runs(verdict) {
        return Some(text);
    }
    let (piece, rest) = read_all(torrent, file, places, text, bad);
    if begins_rightly(verdict, piece) {
        Some(rest)
    } else {
        None
    }
}

// The number within the file of the first of its pieces that is among these places.
fn first_in(places: Places, file: &File<'_>) -> u64
    ensures { result ≡ first_in places (file_entry file.now) }
{
    places.from.max(file.first_piece) - file.first_piece
}

// The number within the file of the piece after the last that is among these places.
fn end_in(torrent: &Torrent<'_>, places: Places, file: &File<'_>) -> u64
    ensures { result ≡ end_in torrent.now places (file_entry file.now) }
{
    let count = piece_count(torrent, file);
    places.to.saturating_sub(file.first_piece).min(count)
}

// Whether this first of the bad pieces is the one that the verdict names, if it names one.
fn begins_rightly(verdict: FileVerdict, first: Option<u64>) -> bool
    ensures { (f : FileEntry) (runs : List Run) → first ≡ first_bad f runs
        → IsTrue result ↔ BeginsAtBad f verdict runs }
{
    match verdict {
        FileVerdict::Bad(piece) => first == Some(piece),
        _ => true,
    }
}

// Reads all runs of pieces of a file among these places, and marks their pieces. Gives the first of
// the pieces, and what follows the runs.
fn read_all<'a>(
    torrent: &Torrent<'_>,
    file: &File<'_>,
    places: Places,
    text: &'a [u8],
    bad: &mut BadPieces,
) -> (Option<u64>, &'a [u8])
    requires file { IsFileOf torrent.now (file_entry file.now) }
    requires room { let f = file_entry file.now in
        f.first_piece + pieces_in torrent.now f ≤ 8 * length bad.old.bits.items }
    ensures { ReadsAll torrent.now places (file_entry file.now) text.now result.0 result.1.now
        bad.old bad.new }
{
    torrent.recall_sound();
    let to = end_in(torrent, places, file);
    let mut at = first_in(places, file);
    let mut piece = None;
    let mut rest = text;
    'runs: while let Some((first, end, behind)) = read_run(torrent, file, at, to, rest) {
        bad.mark(file.first_piece + first, file.first_piece + end);
        piece = piece.or(Some(file.first_piece + first));
        at = end + 1;
        rest = behind;
    }
    (piece, rest)
}

// The run whose line stands at the front, from one piece up to another, and what follows it. It is
// of pieces of the file from `at` on and before `to`.
fn read_run<'a>(
    torrent: &Torrent<'_>,
    file: &File<'_>,
    at: u64,
    to: u64,
    text: &'a [u8],
) -> Option<(u64, u64, &'a [u8])>
    requires file { IsFileOf torrent.now (file_entry file.now) }
    requires inside { to ≤ pieces_in torrent.now (file_entry file.now) }
    ensures { let f = file_entry file.now in
        MatchOption result (HasOneRun torrent.now f at to text.now → ⊥)
        (λ x. (x.0 < x.1) × IsRunWithin at to (record { first = x.0; last = x.1 - 1 })
        × (text.now ≡ text_of (run_row torrent.now f (record { first = x.0; last = x.1 - 1 }))
        ++ x.2.now)) }
{
    torrent.recall_sound();
    let (first, last) = run_numbers(text)?;
    let from = first.checked_sub(file.first_piece)?;
    let end = last.checked_sub(file.first_piece)?.checked_add(1)?;
    if from < at || end <= from || to < end {
        return None;
    }
    let rest = strip_run(torrent, file, from, end, text)?;
    Some((from, end, rest))
}

// The numbers of the first and the last piece of the run whose line stands at the front.
fn run_numbers(text: &[u8]) -> Option<(u64, u64)>
    ensures { (n m : ℕ) → HasNumbers n m text.now
        → MatchOption result ⊥ (λ x. (x.0 ≡ n) × (x.1 ≡ m)) }
{
    let (first, behind) = first_number(text)?;
    let (last, _) = first_number(behind)?;
    Some((first, last))
}
