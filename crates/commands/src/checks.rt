//! The checks of a whole folder.
ghost use Rattle.std.specs.Prelude.{◌≡◌, IfErr};
ghost use Rattle.chains.specs.Chain.{Chain};
ghost use Rattle.commands.specs.Checks.{ChecksInTurn};
ghost use Rattle.commands.specs.Outcomes.{Checks};
ghost use Rattle.folders.specs.Stopping.{BreaksOffAs};
ghost use Rattle.folders.specs.Verdicts.{CountsUnreadable};
ghost use Rattle.folders.specs.Visits.{Visits};
ghost use Rattle.parts.specs.Checking.{shelf_and_sink};
ghost use Rattle.parts.specs.declared.telling.Telling.TheVariants as telling;

use crate::outcomes::status;
use folders::{Lines, Pace, Shelf};
use lines::LineSink;
use opening::Torrent;
use parts::{CheckFault, say_check, say_check_with_bad_pieces};
use printing::{Fault, OUTPUT};
use std::alloc::Global;

/// Checks that a shelf holds the torrent's files, and says the wanted lines of what it found: a
/// file's as soon as it is done. Small files are read together, as many as the pace lets wait. The
/// status is 0 for `yes` and 1 for `no`.
pub fn check<'a, S: Shelf, L: LineSink, P: Pace>(
    alloc: Global,
    torrent: &Torrent<'_>,
    shelf: &mut S,
    lines: Lines,
    pace: &mut P,
    out: &mut L,
) -> Result<u8, Fault<'a>>
    ensures checks { Checks L.spelled torrent.now (S.contents shelf.old).under
        (λ files. Chain (Visits S.Shelf S.File.seen torrent.now) shelf.old torrent.now.files
        files shelf.new × CountsUnreadable (S.faults shelf.old) (S.faults shelf.new) files)
        (BreaksOffAs S.Shelf S.File.seen L.spelled torrent.now shelf.old lines
        (L.seen out.old) (L.seen out.new) shelf.new)
        lines (L.seen out.old) (L.seen out.new) result }
    ensures in_turn { ChecksInTurn S.Shelf S.File.seen L.spelled torrent.now
        (telling.Line lines) lines
        (shelf_and_sink shelf.old (L.seen out.old)) (shelf_and_sink shelf.new (L.seen out.new))
        result }
    ensures no_memory { IfErr result (λ f. f ≡ Fault.NoMemory → shelf.new ≡ shelf.old) }
{
    match say_check(alloc, torrent, shelf, lines, pace, out) {
        Ok(report) => Ok(status(report.yes())),
        Err(CheckFault::NoMemory) => Err(Fault::NoMemory),
        Err(CheckFault::Write) => Err(Fault::Write(OUTPUT)),
    }
}

/// Checks that a shelf holds the torrent's files, as `check` does, and says behind the line of
/// each file that is bad or has another length its runs of bad pieces, before the next file is
/// opened. The status is 0 for `yes` and 1 for `no`.
pub fn check_bad<'a, S: Shelf, L: LineSink>(
    alloc: Global,
    torrent: &Torrent<'_>,
    shelf: &mut S,
    lines: Lines,
    out: &mut L,
) -> Result<u8, Fault<'a>>
    ensures checks { ChecksInTurn S.Shelf S.File.seen L.spelled torrent.now
        (telling.LineAndRuns lines) lines
        (shelf_and_sink shelf.old (L.seen out.old)) (shelf_and_sink shelf.new (L.seen out.new))
        result }
    ensures stays { S.contents shelf.new ≡ S.contents shelf.old }
{
    match say_check_with_bad_pieces(alloc, torrent, shelf, lines, out) {
        Ok(found) => Ok(status(found.yes())),
        Err(CheckFault::NoMemory) => Err(Fault::NoMemory),
        Err(CheckFault::Write) => Err(Fault::Write(OUTPUT)),
    }
}
