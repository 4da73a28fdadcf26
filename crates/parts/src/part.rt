//! The check of some of a torrent's places, and that of a part with a report of its bad pieces as
//! it goes.
ghost use Rattle.std.specs.Prelude.{◌≡◌, ◌*◌, ◌^◌, ◌<◌, IfOk, OnErr};
ghost use Rattle.chains.specs.Chain.{Chain};
ghost use Rattle.folders.specs.Shelf.{more};
ghost use Rattle.folders.specs.Verdicts.{HasVerdicts, unreadable_count};
ghost use Rattle.parts.specs.Checking.{shelf_and_sink};
ghost use Rattle.parts.specs.Finding.{IsTrueOfPlaces};
ghost use Rattle.parts.specs.MarkedChecks.{ChecksMarkedAs, SaysMarked};
ghost use Rattle.parts.specs.PartVisits.{VisitsPart};

use crate::part_lines::{say_bad_head, say_end};
use crate::places::{Places, Span, piece_count, span_of};
use crate::room::{Room, clear_bits};
use crate::row::PieceReader;
use crate::telling::Telling;
use crate::verdicts::Verdicts;
use crate::visiting::{Visitor, visit_files};
use folders::{NoMemory, Report, SeekShelf, taken, visit_at};
use lines::{LineSink, Nowhere, OutFault as CheckFault, finish_after};
use opening::{File, Torrent};
use std::alloc::Global;

/// Checks these places of a torrent on a shelf (BEP 52, "piece layers"; for a hybrid BEP 3,
/// "pieces", too). Each file that has one of them is opened once, at the first of its pieces that
/// is among them, and handed back; no byte behind the last of these is read, but one if the file
/// ends there. A file that has none of them is called good, and is not opened.
///
/// It takes memory for the report before the first path is opened: if that is refused, the shelf
/// stays as it is. If memory for its buffer is refused, it uses a smaller one; a file with long
/// pieces of a hybrid takes memory in which they wait to be hashed side by side, and if that is
/// refused, they are hashed one by one. A file is unreadable if its opening or one of its own reads
/// failed, and the shelf's count of failures grows by the number of these files.
pub fn check_part<S: SeekShelf>(
    alloc: Global,
    torrent: &Torrent<'_>,
    shelf: &mut S,
    places: Places,
) -> Result<Report, NoMemory>
    ensures verdicts { IfOk result (λ r. HasVerdicts torrent.now r.files.items r.v1) }
    ensures are_true { IfOk result (λ r. IsTrueOfPlaces torrent.now places
        (S.Shelf.contents shelf.old).under r.files.items r.v1) }
    ensures once { IfOk result (λ r.
        Chain (VisitsPart S.opens_at S.Shelf.closes S.File.seen torrent.now places) shelf.old
        torrent.now.files r.files.items shelf.new) }
    ensures unreadable { IfOk result (λ r. S.Shelf.faults shelf.new
        ≡ more (S.Shelf.faults shelf.old) (unreadable_count r.files.items)) }
    ensures readable { IfOk result (λ r.
        S.Shelf.faults shelf.new ≡ S.Shelf.faults shelf.old
        → unreadable_count r.files.items ≡ 0) }
    ensures no_memory { OnErr result (shelf.new ≡ shelf.old) }
    ensures stays { S.Shelf.contents shelf.new ≡ S.Shelf.contents shelf.old }
{
    torrent.recall_sound();
    let mut nowhere = Nowhere::new();
    let telling = Telling::Nothing;
    let Ok(room) = Room::of(alloc, torrent, telling) else {
        return Err(NoMemory);
    };
    match visit_files(room, torrent, &places, shelf, telling, &mut nowhere) {
        Ok(report) => Ok(report),
        Err(_) => unreachable!(),
    }
}

// The visits of the files that have one of these places.
impl<S: SeekShelf> Visitor<S> for Places {
    ghost use Rattle.parts.specs.Visiting.{part_visiting};

    ghost visiting = { λ r t. part_visiting S.Shelf S.opens_at S.File.seen r t };

    fn visit(
        &self,
        shelf: &mut S,
        torrent: &Torrent<'_>,
        file: &File<'_>,
        bits: &mut Vec<u8>,
        buffer: &mut [u8],
    ) -> Verdicts {
        torrent.recall_sound();
        clear_bits(bits, piece_count(torrent, file));
        let Some(span) = span_of(torrent, file, *self) else {
            return Verdicts::of_other();
        };
        let offset = first_byte(torrent, span);
        let mut reader = PieceReader {
            torrent,
            file,
            span,
            bits: taken(bits),
        };
        let visited = visit_at(shelf, &file.path.parts(), offset, &mut reader, buffer);
        *bits = reader.bits;
        Verdicts::of_visit(file, visited, false)
    }
}

// The byte of a file at which these pieces begin.
fn first_byte(torrent: &Torrent<'_>, span: Span) -> u64
    requires { torrent.now.piece_length * span.from < 2 ^ 64 }
    ensures { result ≡ torrent.now.piece_length * span.from }
{
    torrent.piece_length() * span.from
}

/// Checks the places of one of this many parts of a torrent on a shelf, numbered from 0, as
/// `check_part` does, and says what it finds, to anything that takes lines: the line `part I/N
/// INFOHASH bad`, with the part's number from 1 on; then, as soon as a file is done that has a
/// place in the part, and before the next is opened, its line as `say_part` writes it; and behind
/// the line of one that is bad or has another length the line `bad pieces FIRST LAST bytes FROM-TO`
/// of each maximal run of its bad pieces among the part's places (BEP 52, "pieces root", "piece
/// layers"), in ascending order. FIRST and LAST are the torrent's numbers of pieces, FROM and TO
/// offsets in the file, both included. A piece that the content does not have whole is bad; what
/// lies after the file's stated length is no piece. At last it writes what `say_part` writes behind
/// the files' lines, and flushes once.
///
/// What it cannot do without is taken before anything is opened or written: memory for the report,
/// and a bit for each piece of the file that has the most. Condition: there is such a part.
///
/// # Errors
///
/// `NoMemory`: nothing was opened or written. `Write`: the sink failed in the first line, and
/// nothing was opened; or at a file, whose lines went out as far as a prefix, and no later file was
/// opened; or behind the last file.
pub fn say_check_part_with_bad_pieces<S: SeekShelf, L: LineSink>(
    alloc: Global,
    torrent: &Torrent<'_>,
    shelf: &mut S,
    part: u64,
    parts: u64,
    out: &mut L,
) -> Result<Report, CheckFault>
    requires there { part < parts }
    ensures checks { ChecksMarkedAs L.spelled S.Shelf S.opens_at S.File.seen
        torrent.now part parts (shelf_and_sink shelf.old (L.seen out.old))
        (shelf_and_sink shelf.new (L.seen out.new)) result }
    ensures report { IfOk result (λ r. SaysMarked L.spelled torrent.now part parts
        (S.Shelf.contents shelf.old).under r.files.items r.v1 (L.seen out.old) (L.seen out.new)) }
    ensures stays { S.Shelf.contents shelf.new ≡ S.Shelf.contents shelf.old }
{
    let places = Places::of_part(torrent, part, parts);
    let telling = Telling::RunsIn(places);
    let room = Room::of(alloc, torrent, telling)?;
    say_bad_head(torrent, part, parts, out)?;
    let report = visit_files(room, torrent, &places, shelf, telling, out)?;
    let said = say_end(&report, out);
    finish_after(out, said)?;
    Ok(report)
}
