//! What a join of the reports of parts answers.
ghost use Rattle.std.specs.Prelude.{map};
ghost use Rattle.commands.specs.Outcomes.{JoinsParts, JoinsMarkedParts};

use crate::outcomes::status;
use folders::say_report;
use lines::LineSink;
use opening::Torrent;
use part_reports::{JoinFault, join_marked_reports, join_reports, say_marked_report};
use printing::{Fault, OUTPUT};
use std::alloc::Global;

/// Joins plain reports, and says the verdicts.
pub(crate) fn join_plain<'a, L: LineSink>(
    alloc: Global,
    torrent: &Torrent<'_>,
    texts: &[&[u8]],
    out: &mut L,
) -> Result<Result<u8, JoinFault>, Fault<'a>>
    ensures { JoinsParts L.spelled torrent.now (map (λ x. x.now) texts.now)
        (L.seen out.old) (L.seen out.new) result }
{
    let report = match join_reports(alloc, torrent, texts) {
        Ok(report) => report,
        Err(JoinFault::NoMemory) => return Err(Fault::NoMemory),
        Err(fault) => return Ok(Err(fault)),
    };
    match say_report(&report, torrent, out) {
        Ok(()) => Ok(Ok(status(report.yes()))),
        Err(_) => Err(Fault::Write(OUTPUT)),
    }
}

/// Joins marked reports, and says the verdicts and the runs of bad pieces.
pub(crate) fn join_marked<'a, L: LineSink>(
    alloc: Global,
    torrent: &Torrent<'_>,
    texts: &[&[u8]],
    out: &mut L,
) -> Result<Result<u8, JoinFault>, Fault<'a>>
    ensures { JoinsMarkedParts L.spelled torrent.now (map (λ x. x.now) texts.now)
        (L.seen out.old) (L.seen out.new) result }
{
    let joined = match join_marked_reports(alloc, torrent, texts) {
        Ok(joined) => joined,
        Err(JoinFault::NoMemory) => return Err(Fault::NoMemory),
        Err(fault) => return Ok(Err(fault)),
    };
    match say_marked_report(&joined, torrent, out) {
        Ok(()) => Ok(Ok(status(joined.report.yes()))),
        Err(_) => Err(Fault::Write(OUTPUT)),
    }
}
