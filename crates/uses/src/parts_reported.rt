//! What machines ask that each check a part of one torrent's files, and whoever joins their
//! reports.
ghost use Rattle.std.specs.Prelude.{◌-◌, IfOk, map};
ghost use Rattle.uses.specs.PartsReported.{IsWhatACheckSays, SendsReport};

use actions::NumberedPart;
use benc::Sink;
use checker::laws::{places_are_tested, texts_make_the_report, true_parts_report};
use checker::{Fault, JoinFault, Report, SeekShelf, join_reports};
use commands::part_checks::check_part;
use metainfo::Torrent;
use std::alloc::Global;

/// Checks one part of the files on a shelf and writes its report. After an answer a whole report of
/// the part went out, which is true of contents that are those of the shelf, as far as these are
/// known: what `joined_report` and `machines_hold_all` ask of each report.
pub fn report_part<'a, S: SeekShelf, W: Sink>(
    alloc: Global,
    torrent: &Torrent<'_>,
    shelf: &mut S,
    part: NumberedPart,
    out: &mut W,
) -> Result<u8, Fault<'a>>
    ensures { IfOk result (λ _. SendsReport torrent.now (part.number - 1) part.count
        (S.Shelf.contents shelf.old).under (W.seen out.old) (W.seen out.new)) }
{
    places_are_tested();
    true_parts_report();
    check_part(alloc, torrent, shelf, part, out)
}

/// What the reports of all parts say together. If each is the report of a part, and true of the
/// same contents, it is what `check` says of these, or two inputs with one digest are named.
pub fn joined_report(
    alloc: Global,
    torrent: &Torrent<'_>,
    reports: &[&[u8]],
) -> Result<Report, JoinFault>
    ensures { IfOk result (λ r. IsWhatACheckSays torrent.now (map (λ x. x.now) reports.now)
        r.files.items r.v1) }
{
    torrent.recall_sound();
    texts_make_the_report();
    join_reports(alloc, torrent, reports)
}
