//! The whole files of a torrent, checked one after the other; where no more than lines are told of
//! them, small ones that follow one another are visited together.
ghost use Rattle.std.specs.Prelude.{◌≡◌, is_some, IfSome};
ghost use Rattle.parts.specs.Checking.{EndsFiles, EndsWhole, shelf_and_sink};
ghost use Rattle.parts.specs.Passing.{IsCutFor};
ghost use Rattle.parts.specs.Rooms.{IsRoomFor};
ghost use Rattle.parts.specs.Telling.{TellsWhole, NeedsBits};

use crate::job::{CheckJob, CheckScratch, Checked};
use crate::places::Span;
use crate::room::{Room, buffer_of, clear_bits};
use crate::row::PieceReader;
use crate::telling::Telling;
use crate::verdicts::Verdicts;
use crate::visiting::{Visitor, visit_files};
use benc::DeviceFault;
use folders::{Pace, Report, Shelf, V1Verdict, taken, visit};
use lines::{LineSink, OutFault as CheckFault};
use opening::{File, Torrent};
use passes::{CutsWanted, HeldFiles, pass};
use pieces::PieceLength;
use std::alloc::Global;

/// Checks each file of a torrent in turn, and says what is wanted of it: of small files together,
/// at this pace. What it cannot do without is taken before the first path is opened: memory for the
/// report, and for the bits of pieces if they are told of. What breaks off ends the check.
/// Condition: what is told is of whole files.
pub(crate) fn visit_whole<S: Shelf, L: LineSink, P: Pace>(
    alloc: Global,
    torrent: &Torrent<'_>,
    shelf: &mut S,
    telling: Telling,
    pace: &mut P,
    out: &mut L,
) -> Result<Report, CheckFault>
    requires whole { TellsWhole telling }
    ensures checks { EndsFiles S.Shelf S.File.seen L.spelled torrent.now telling
        (shelf_and_sink shelf.old (L.seen out.old)) (shelf_and_sink shelf.new (L.seen out.new))
        result }
    ensures stays { S.contents shelf.new ≡ S.contents shelf.old }
{
    torrent.recall_sound();
    let room = Room::of(alloc, torrent, telling)?;
    let report = visit_in(room, torrent, shelf, telling, pace, out)?;
    Ok(report)
}

// Visits each file: small ones together, unless bits of pieces are told of. Conditions: there is
// room for what is told, and it is of whole files.
fn visit_in<S: Shelf, L: LineSink, P: Pace>(
    room: Room,
    torrent: &Torrent<'_>,
    shelf: &mut S,
    telling: Telling,
    pace: &mut P,
    out: &mut L,
) -> Result<Report, DeviceFault>
    requires room { IsRoomFor torrent.now telling room }
    requires whole { TellsWhole telling }
    ensures ends { EndsWhole S.Shelf S.File.seen L.spelled torrent.now telling
        (shelf_and_sink shelf.old (L.seen out.old)) (shelf_and_sink shelf.new (L.seen out.new))
        result }
    ensures stays { S.contents shelf.new ≡ S.contents shelf.old }
{
    torrent.recall_sound();
    match telling {
        Telling::Nothing | Telling::Line(_) => {
            pass_files(room, torrent, shelf, telling, pace, out)
        }
        _ => visit_files(room, torrent, &WholeFiles, shelf, telling, out),
    }
}

// Visits each file of a torrent once and in order, and says what is wanted of it. The small files
// that come next are visited together, before the first of them is told of, until that is due by
// the pace. No memory is taken but for the buffers: if that is refused, they are smaller ones. What
// breaks off ends the visits.
// Conditions: there is room for what is told, and that is no bits.
// It has what is held in its frame, so it is not inlined.
#[inline(never)]
fn pass_files<S: Shelf, L: LineSink, P: Pace>(
    room: Room,
    torrent: &Torrent<'_>,
    shelf: &mut S,
    telling: Telling,
    pace: &mut P,
    out: &mut L,
) -> Result<Report, DeviceFault>
    requires room { IsRoomFor torrent.now telling room }
    requires lines { NeedsBits telling → ⊥ }
    ensures ends { EndsWhole S.Shelf S.File.seen L.spelled torrent.now telling
        (shelf_and_sink shelf.old (L.seen out.old)) (shelf_and_sink shelf.new (L.seen out.new))
        result }
    ensures stays { S.contents shelf.new ≡ S.contents shelf.old }
{
    torrent.recall_sound();
    let Room { files, bits: _ } = room;
    let alloc = *files.allocator();
    let mut scratch = CheckScratch {
        buffer: buffer_of(alloc, torrent),
        pace,
    };
    let mut held = held_of(alloc, torrent);
    let job = CheckJob {
        alloc,
        torrent,
        telling,
    };
    let mut checked = Checked {
        files,
        v1: V1Verdict::Good,
    };
    match pass(shelf, &job, &mut scratch, &mut held, &mut checked, out) {
        Ok(()) => Ok(report_of(torrent, checked)),
        Err(stopped) => Err(stopped.stop),
    }
}

// The report on all files, by the verdicts on them.
fn report_of(torrent: &Torrent<'_>, checked: Checked) -> Report
    ensures files { result.files ≡ checked.files }
    ensures hybrid { is_some result.v1 ≡ is_some torrent.now.v1 }
    ensures v1 { IfSome result.v1 (λ v. checked.v1 ≡ v) }
{
    let v1 = match torrent.v1() {
        Some(_) => Some(checked.v1),
        None => None,
    };
    Report {
        files: checked.files,
        v1,
    }
}

// Room for small files of a torrent that are held together.
fn held_of(alloc: Global, torrent: &Torrent<'_>) -> HeldFiles
    ensures { IsCutFor torrent.now result.cutting }
{
    torrent.recall_sound();
    let wanted = match torrent.v1() {
        Some(_) => CutsWanted::Filled,
        None => CutsWanted::Nothing,
    };
    let piece_length = PieceLength::new(torrent.piece_length()).unwrap();
    HeldFiles::new(alloc, torrent.files().len(), piece_length, wanted)
}

// The visits of whole files.
struct WholeFiles;

impl<S: Shelf> Visitor<S> for WholeFiles {
    ghost use Rattle.parts.specs.Visiting.{whole_visiting};

    ghost visiting = { λ _ t. whole_visiting S.Shelf S.File.seen t };

    fn visit(
        &self,
        shelf: &mut S,
        torrent: &Torrent<'_>,
        file: &File<'_>,
        bits: &mut Vec<u8>,
        buffer: &mut [u8],
    ) -> Verdicts {
        torrent.recall_sound();
        let span = Span::of_all(torrent, file);
        clear_bits(bits, span.to);
        let mut reader = PieceReader {
            torrent,
            file,
            span,
            bits: taken(bits),
        };
        let visited = visit(shelf, &file.path.parts(), &mut reader, buffer);
        *bits = reader.bits;
        Verdicts::of_visit(file, visited, true)
    }
}
