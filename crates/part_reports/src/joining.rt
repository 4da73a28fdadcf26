//! The join of the reports of all parts.
ghost use Rattle.std.specs.Prelude.{◌≡◌, ℕ, ◌+◌, ◌*◌, ◌<◌, ◌≤◌, length, map, replicate, is_some, IfErr, IfOk, MatchOption, Some};
ghost use Rattle.folders.specs.declared.report.V1Verdict.{V1Verdict as OfV1};
ghost use Rattle.parts.specs.Parts.{place_count};
ghost use Rattle.parts.specs.Shares.{share};
ghost use Rattle.part_reports.specs.Joined.{AreJoined};
ghost use Rattle.part_reports.specs.MarkedJoins.{AreJoinedAs, JoinsText};
ghost use Rattle.part_reports.specs.Marks.{HasMarkRoom, IsPieceMarked};
ghost use Rattle.part_reports.specs.Numbers.{text_count};
ghost use Rattle.part_reports.specs.Reasons.{AreNamed, HasJoinReason, HasReasonOf, IsReportOfKind};
ghost use Rattle.part_reports.specs.declared.marked_report.BadPieces.{BadPieces as OfBad};

use crate::head::behind_head;
use crate::join_fault::JoinFault;
use crate::kind::Kind;
use crate::marked_report::{BadPieces, MarkedReport};
use crate::numbers::Numbers;
use crate::report_lines::join_lines;
use crate::starts::Division;
use folders::{FileVerdict, Report, V1Verdict};
use opening::Torrent;
use parts::Places;
use parts::laws::{shares_have_all_places, worse_joins};
use std::alloc::{AllocError, Global};

/// Joins the reports of all parts of a check of this torrent, which come in any order: each verdict
/// is the worst of what the parts say. The first lines are read first, in the order of the reports,
/// and then the reports, in that of their parts: the first fault is answered.
///
/// # Errors
///
/// The first of these. By the first lines, in the order of the reports: `NoReport`,
/// `OtherTorrent`, `OtherCount` and `Twice`. Then part after part: `Missing`, or `NoReport` of what
/// is not the whole report of its part; of no reports part 1 of 1 is missing. So the reports of all
/// parts, each once, are joined (`laws::all_reports_are_joined`). `NoMemory`: memory was refused
/// for the numbers of the parts or for the report.
pub fn join_reports(
    alloc: Global,
    torrent: &Torrent<'_>,
    texts: &[&[u8]],
) -> Result<Report, JoinFault>
    ensures joined { IfOk result (λ r.
        AreJoined torrent.now (map (λ x. x.now) texts.now) r.files.items r.v1) }
    ensures reason { IfErr result (HasJoinReason torrent.now (map (λ x. x.now) texts.now)) }
{
    Ok(join_all(alloc, torrent, Kind::Plain, texts)?.report)
}

/// Joins the marked reports of all parts, as `join_reports` does plain ones: each verdict is the
/// worst of what the parts say, and a piece is bad exactly if one of the parts says so.
///
/// # Errors
///
/// Those of `join_reports`; a plain report is no marked one.
pub fn join_marked_reports(
    alloc: Global,
    torrent: &Torrent<'_>,
    texts: &[&[u8]],
) -> Result<MarkedReport, JoinFault>
    ensures joined { IfOk result
        (AreJoinedAs Kind.Marked torrent.now (map (λ x. x.now) texts.now)) }
    ensures reason { IfErr result
        (HasReasonOf Kind.Marked torrent.now (map (λ x. x.now) texts.now)) }
{
    join_all(alloc, torrent, Kind::Marked, texts)
}

// Joins the reports of all parts, which are to be of this kind.
fn join_all(
    alloc: Global,
    torrent: &Torrent<'_>,
    kind: Kind,
    texts: &[&[u8]],
) -> Result<MarkedReport, JoinFault>
    ensures joined { IfOk result (AreJoinedAs kind torrent.now (map (λ x. x.now) texts.now)) }
    ensures reason { IfErr result (HasReasonOf kind torrent.now (map (λ x. x.now) texts.now)) }
{
    if texts.is_empty() {
        return Err(JoinFault::Missing(1, 1));
    }
    let numbers = Numbers::of(alloc, torrent, kind, texts)?;
    join_parts(alloc, torrent, kind, &numbers, texts)
}

// Reads the reports of all parts, one after the other, and joins them.
fn join_parts(
    alloc: Global,
    torrent: &Torrent<'_>,
    kind: Kind,
    numbers: &Numbers,
    texts: &[&[u8]],
) -> Result<MarkedReport, JoinFault>
    requires some { 0 < length texts.now }
    requires texts { text_count numbers.now ≡ length texts.now }
    requires named { AreNamed kind torrent.now (map (λ x. x.now) texts.now)
        numbers.now.parts.items numbers.now.count }
    ensures joined { IfOk result (AreJoinedAs kind torrent.now (map (λ x. x.now) texts.now)) }
    ensures reason { IfErr result (HasReasonOf kind torrent.now (map (λ x. x.now) texts.now)) }
{
    worse_joins();
    shares_have_all_places();
    let division = Division::of(torrent, numbers.count);
    let mut start = division.first_start();
    let mut joined = all_good(alloc, torrent, kind, division.pieces)?;
    'parts: for part in 0..numbers.count {
        let Some(place) = numbers.place_of(part) else {
            return Err(JoinFault::Missing(part + 1, numbers.count));
        };
        let end = division.start(torrent, part + 1, start);
        let awaited = Awaited {
            kind,
            part,
            parts: numbers.count,
            places: Places {
                from: start.place,
                to: end.place,
            },
        };
        match join_text(torrent, awaited, division.pieces, texts[place], &mut joined) {
            Some(()) => start = end,
            None => return Err(JoinFault::NoReport(place)),
        }
    }
    Ok(joined)
}

// The report that a text is to be.
#[derive(Clone, Copy)]
struct Awaited {
    // Its kind.
    kind: Kind,
    // The number of its part, from 0.
    part: u64,
    // How many parts there are.
    parts: u64,
    // The places of the part.
    places: Places,
}

// Joins to a report what a text says, as the report that it is to be. The torrent has this many
// pieces.
fn join_text(
    torrent: &Torrent<'_>,
    awaited: Awaited,
    pieces: u64,
    text: &[u8],
    joined: &mut MarkedReport,
) -> Option<()>
    requires there { awaited.part < awaited.parts }
    requires pieces { pieces + 1 ≡ place_count torrent.now }
    requires places { awaited.places ≡ share torrent.now awaited.part awaited.parts }
    requires files { length joined.old.report.files.items ≡ length torrent.now.files }
    requires hybrid { is_some joined.old.report.v1 ≡ is_some torrent.now.v1 }
    requires room { HasMarkRoom awaited.kind pieces joined.old.bad }
    ensures { let a = awaited in MatchOption result
        (IsReportOfKind a.kind torrent.now a.part a.parts text.now → ⊥)
        (λ u. JoinsText a.kind torrent.now a.part a.parts text.now joined.old joined.new) }
{
    let lines = behind_head(torrent, awaited.kind, awaited.part, awaited.parts, text)?;
    join_lines(torrent, awaited.kind, awaited.places, pieces, lines, joined)
}

// The report that says nothing: all is good, and no piece is marked. The torrent has this many
// pieces.
fn all_good(
    alloc: Global,
    torrent: &Torrent<'_>,
    kind: Kind,
    pieces: u64,
) -> Result<MarkedReport, AllocError>
    ensures files { IfOk result (λ r.
        r.report.files.items ≡ replicate (length torrent.now.files) FileVerdict.Good) }
    ensures hybrid { IfOk result (λ r. is_some r.report.v1 ≡ is_some torrent.now.v1) }
    ensures version1 { IfOk result (λ r. (v : OfV1) → r.report.v1 ≡ Some v → v ≡ V1Verdict.Good) }
    ensures room { IfOk result (λ r. HasMarkRoom kind pieces r.bad) }
    ensures none { IfOk result (λ r. (piece : ℕ) → IsPieceMarked r.bad piece → ⊥) }
{
    let bad = BadPieces::none(alloc, mark_count(kind, pieces))?;
    let mut files = Vec::new(alloc);
    files.resize(torrent.files().len(), FileVerdict::Good)?;
    let v1 = match torrent.v1() {
        Some(_) => Some(V1Verdict::Good),
        None => None,
    };
    let report = Report { files, v1 };
    Ok(MarkedReport { report, bad })
}

// How many bits reports of this kind need, for this many pieces.
fn mark_count(kind: Kind, pieces: u64) -> u64
    ensures { (bad : OfBad) → result ≤ 8 * length bad.bits.items → HasMarkRoom kind pieces bad }
{
    match kind {
        Kind::Plain => 0,
        Kind::Marked => pieces,
    }
}
