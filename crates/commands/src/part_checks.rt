//! The checks of one part, without and with its bad pieces.
ghost use Rattle.std.specs.Prelude.{◌≡◌, ◌-◌, IfErr};
ghost use Rattle.chains.specs.Chain.{Chain};
ghost use Rattle.commands.specs.MarkedParts.{ChecksPartInTurn};
ghost use Rattle.commands.specs.Outcomes.{ChecksPart};
ghost use Rattle.folders.specs.Verdicts.{CountsUnreadable};
ghost use Rattle.parts.specs.PartVisits.{VisitsPart};
ghost use Rattle.parts.specs.Shares.{share};
ghost use Rattle.parts.specs.Checking.{shelf_and_sink};

use crate::outcomes::status;
use actions::NumberedPart;
use folders::SeekShelf;
use lines::LineSink;
use opening::Torrent;
use parts::{CheckFault, Places, say_check_part_with_bad_pieces, say_part};
use printing::{Fault, OUTPUT};
use std::alloc::Global;

/// Checks one part of the torrent's files on a shelf, and says what it found: the lines of the
/// files that have a place in the part. The status is 0 for `part yes` and 1 for `part no`.
pub fn check_part<'a, S: SeekShelf, L: LineSink>(
    alloc: Global,
    torrent: &Torrent<'_>,
    shelf: &mut S,
    part: NumberedPart,
    out: &mut L,
) -> Result<u8, Fault<'a>>
    ensures checks { ChecksPart L.spelled torrent.now (part.number - 1) part.count
        (S.Shelf.contents shelf.old).under
        (λ files. Chain (VisitsPart S.opens_at S.Shelf.closes S.File.seen torrent.now
        (share torrent.now (part.number - 1) part.count)) shelf.old torrent.now.files files
        shelf.new × CountsUnreadable (S.Shelf.faults shelf.old) (S.Shelf.faults shelf.new) files)
        (L.seen out.old) (L.seen out.new) result }
    ensures no_memory { IfErr result (λ f. f ≡ Fault.NoMemory → shelf.new ≡ shelf.old) }
{
    let number = part.number - 1;
    let places = Places::of_part(torrent, number, part.count);
    let Ok(report) = parts::check_part(alloc, torrent, shelf, places) else {
        return Err(Fault::NoMemory);
    };
    match say_part(&report, torrent, number, part.count, out) {
        Ok(()) => Ok(status(report.yes())),
        Err(_) => Err(Fault::Write(OUTPUT)),
    }
}

/// Checks one part of the torrent's files on a shelf, and says the line of each file that has a
/// place in it, and behind that of one that is bad or has another length its runs of bad pieces
/// among the part's places, before the next file is opened. The status is 0 for `part yes` and 1
/// for `part no`.
pub fn check_part_bad<'a, S: SeekShelf, L: LineSink>(
    alloc: Global,
    torrent: &Torrent<'_>,
    shelf: &mut S,
    part: NumberedPart,
    out: &mut L,
) -> Result<u8, Fault<'a>>
    ensures checks { ChecksPartInTurn L.spelled S.Shelf S.opens_at S.File.seen
        torrent.now (part.number - 1) part.count (shelf_and_sink shelf.old (L.seen out.old))
        (shelf_and_sink shelf.new (L.seen out.new)) result }
    ensures stays { S.Shelf.contents shelf.new ≡ S.Shelf.contents shelf.old }
{
    match say_check_part_with_bad_pieces(alloc, torrent, shelf, part.number - 1, part.count, out) {
        Ok(found) => Ok(status(found.yes())),
        Err(CheckFault::NoMemory) => Err(Fault::NoMemory),
        Err(CheckFault::Write) => Err(Fault::Write(OUTPUT)),
    }
}
