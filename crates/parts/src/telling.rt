//! What is said of each file of a check as soon as it is done: its line, and those of its runs of
//! bad pieces.
ghost use Rattle.std.specs.Prelude.{◌≡◌, ◌*◌, ◌≤◌, length, IfOk, OnErr, ◌+◌, ◌-◌, ◌<◌, ◌++◌, min, map, MatchOption};
ghost use Rattle.std.specs.Vec.{vec_capacity};
ghost use Rattle.benc.specs.Device.{Wrote};
ghost use Rattle.folders.specs.Verdicts.{IsFileOf};
ghost use Rattle.lines.specs.Reading.{BeginsWith};
ghost use Rattle.lines.specs.Table.{row_of};
ghost use Rattle.lines.specs.Texts.{text_of};
ghost use Rattle.opening.specs.Seen.{file_entry};
ghost use Rattle.parts.specs.Parts.{piece_count as pieces_in};
ghost use Rattle.parts.specs.Runs.{IsSetIfIn, WritesRuns, run_row};
ghost use Rattle.parts.specs.Telling.{IsMostPieces, NeedsBits, TellsFile, TellsNothing, has_runs};
ghost use Rattle.parts.specs.declared.telling.Telling.TheVariants as telling;

use crate::places::{Places, piece_count, span_of};
use benc::DeviceFault;
use folders::{FileVerdict, Lines, say_verdict, say_wanted};
use hashtree::clear_run;
use lines::{Checked, Line, LineSink, say, strip_line};
use opening::{File, Torrent};
use std::alloc::{AllocError, Global};

/// What is written of each file as soon as it is done.
#[derive(Clone, Copy)]
pub enum Telling {
    /// Nothing.
    Nothing,
    /// Its line, if it is wanted.
    Line(Lines),
    /// Its line, if it is wanted, and the lines of its bad pieces.
    LineAndRuns(Lines),
    /// Its line, if it has one of these places, and the lines of its bad pieces among them.
    RunsIn(Places),
}

/// Bits of pieces in a row.
#[derive(Clone, Copy)]
pub struct PieceBits<'a> {
    /// The bits.
    pub bits: &'a [u8],
    /// The number of the bit of the first piece.
    pub first: usize,
}

impl Telling {
    ghost use Rattle.parts.specs.Telling.{HasBits};

    /// Room for a bit for each piece of any file, if they are told of.
    pub(crate) fn bits(self, alloc: Global, torrent: &Torrent<'_>) -> Result<Vec<u8>, AllocError>
        ensures { IfOk result (λ bits. HasBits torrent.now self (vec_capacity bits)) }
    {
        match self {
            Telling::LineAndRuns(_) | Telling::RunsIn(_) => {
                let bits = Vec::with_capacity(alloc, most_pieces(torrent).div_ceil(8) as usize)?;
                Ok(bits)
            }
            Telling::Nothing | Telling::Line(_) => Ok(Vec::new(alloc)),
        }
    }

    /// Says what is wanted of a file with this verdict, of whose pieces these bits tell: of all,
    /// or of those among the places that are told of. Nothing is flushed. Conditions: the torrent
    /// has the file, and there is a bit for each of its pieces if they are told of.
    pub(crate) fn tell<L: LineSink>(
        self,
        torrent: &Torrent<'_>,
        file: &File<'_>,
        verdict: FileVerdict,
        bits: &[u8],
        out: &mut L,
    ) -> Result<(), DeviceFault>
        requires file { IsFileOf torrent.now (file_entry file.now) }
        requires room { NeedsBits self → pieces_in torrent.now (file_entry file.now)
            ≤ 8 * length bits.now }
        ensures tells { TellsFile L.spelled torrent.now self (file_entry file.now) verdict
            bits.now (L.seen out.old) (L.seen out.new) result }
        ensures some { OnErr result (TellsNothing self → ⊥) }
    {
        match self {
            Telling::Nothing => Ok(()),
            Telling::Line(lines) => say_wanted(lines, verdict, file, out),
            Telling::LineAndRuns(lines) => {
                say_wanted(lines, verdict, file, out)?;
                if has_runs(verdict) {
                    let count = piece_count(torrent, file);
                    let bits = PieceBits { bits, first: 0 };
                    say_runs(torrent, file, 0, count, bits, out)?;
                }
                Ok(())
            }
            Telling::RunsIn(places) => say_marked(torrent, file, verdict, places, bits, out),
        }
    }
}

// Says the line of a file that has one of these places, and the lines of its bad pieces among
// them, of which these bits tell.
fn say_marked<L: LineSink>(
    torrent: &Torrent<'_>,
    file: &File<'_>,
    verdict: FileVerdict,
    places: Places,
    bits: &[u8],
    out: &mut L,
) -> Result<(), DeviceFault>
    requires file { IsFileOf torrent.now (file_entry file.now) }
    requires room { pieces_in torrent.now (file_entry file.now) ≤ 8 * length bits.now }
    ensures { TellsFile L.spelled torrent.now (telling.RunsIn places)
        (file_entry file.now) verdict bits.now (L.seen out.old) (L.seen out.new) result }
{
    let Some(span) = span_of(torrent, file, places) else {
        return Ok(());
    };
    say_verdict(verdict, file, out)?;
    if has_runs(verdict) {
        let bits = PieceBits { bits, first: 0 };
        say_runs(torrent, file, span.from, span.to, bits, out)?;
    }
    Ok(())
}

// The most pieces of a file of the torrent.
fn most_pieces(torrent: &Torrent<'_>) -> u64
    ensures { IsMostPieces torrent.now result }
{
    torrent.recall_sound();
    let entries = torrent.files();
    let mut most: u64 = 0;
    'files: for file in entries {
        most = most.max(piece_count(torrent, file));
    }
    most
}

/// Whether the lines of the bad pieces of a file with this verdict are said.
pub fn has_runs(verdict: FileVerdict) -> bool
    ensures { result ≡ has_runs verdict }
{
    matches!(verdict, FileVerdict::WrongLength | FileVerdict::Bad(_))
}

/// Says the line of each run of a file's pieces, from one up to another, whose bits are not set, in
/// ascending order. After a fault a prefix of these lines went out. Conditions: the torrent has the
/// file, the pieces are some of its own, and the first one's bit has no higher number than the
/// file's first piece has in the torrent.
pub fn say_runs<L: LineSink>(
    torrent: &Torrent<'_>,
    file: &File<'_>,
    from: u64,
    to: u64,
    bits: PieceBits<'_>,
    out: &mut L,
) -> Result<(), DeviceFault>
    requires file { IsFileOf torrent.now (file_entry file.now) }
    requires order { from ≤ to }
    requires inside { to ≤ pieces_in torrent.now (file_entry file.now) }
    requires first { bits.first ≤ file.now.first_piece }
    ensures { WritesRuns L.spelled torrent.now (file_entry file.now)
        (IsSetIfIn bits.entry.first from to bits.entry.bits.now)
        (L.seen out.old) (L.seen out.new) result }
{
    torrent.recall_sound();
    let end_bit = bits.first + (to - from) as usize;
    let mut at = bits.first;
    'runs: while let Some((first_bit, next_bit)) = clear_run(bits.bits, at, end_bit) {
        let (first, end) = (first_bit - bits.first, next_bit - bits.first);
        say_run(torrent, file, from + first as u64, from + end as u64, out)?;
        at = next_bit;
    }
    Ok(())
}

// The torrent's numbers of the first and last piece of a run, and the offsets in the file of its
// first and last byte.
#[derive(Drop)]
struct Bounds {
    first: u64,
    last: u64,
    from: u64,
    to: u64,
}

/// Says the line `bad pieces FIRST LAST bytes FROM-TO` of the run from one piece of a file up to
/// another. FIRST and LAST are the torrent's numbers of pieces, FROM and TO offsets in the file,
/// both included. After a fault a prefix of it went out. Conditions: the torrent has the file, and
/// the pieces are some of its own.
pub fn say_run<L: LineSink>(
    torrent: &Torrent<'_>,
    file: &File<'_>,
    from: u64,
    to: u64,
    out: &mut L,
) -> Result<(), DeviceFault>
    requires file { IsFileOf torrent.now (file_entry file.now) }
    requires some { from < to }
    requires inside { to ≤ pieces_in torrent.now (file_entry file.now) }
    ensures { Wrote (L.seen out.old) (L.seen out.new) result (L.spelled
        (run_row torrent.now (file_entry file.now) (record { first = from; last = to - 1 }))) }
{
    say(&line_of(torrent, file, from, to, &file.path.parts()), out)
}

/// What stands behind that line, if a text begins with it. It takes no memory. Conditions: as for
/// `say_run`.
pub fn strip_run<'a>(
    torrent: &Torrent<'_>,
    file: &File<'_>,
    from: u64,
    to: u64,
    text: &'a [u8],
) -> Option<&'a [u8]>
    requires file { IsFileOf torrent.now (file_entry file.now) }
    requires some { from < to }
    requires inside { to ≤ pieces_in torrent.now (file_entry file.now) }
    ensures { let line = text_of (run_row torrent.now (file_entry file.now)
        (record { first = from; last = to - 1 })) in
        MatchOption result (BeginsWith line text.now → ⊥) (λ rest. text.now ≡ line ++ rest.now) }
{
    strip_line(&line_of(torrent, file, from, to, &file.path.parts()), text)
}

// The line of a run of a file with this path. Conditions: as for `say_run`.
fn line_of<'a>(
    torrent: &Torrent<'_>,
    file: &File<'_>,
    from: u64,
    to: u64,
    path: &'a [&'a str],
) -> Line<'a>
    requires file { IsFileOf torrent.now (file_entry file.now) }
    requires path { map (λ s. s.now) path.now ≡ file.now.path }
    requires some { from < to }
    requires inside { to ≤ pieces_in torrent.now (file_entry file.now) }
    ensures { row_of result
        ≡ run_row torrent.now (file_entry file.now) (record { first = from; last = to - 1 }) }
{
    let run = bounds_of(torrent, file, from, to);
    Line::Checked(Checked::BadPieces {
        first: run.first,
        last: run.last,
        from: run.from,
        to: run.to,
        path,
    })
}

// What the line of a run tells. Conditions: as for `say_run`.
fn bounds_of(torrent: &Torrent<'_>, file: &File<'_>, from: u64, to: u64) -> Bounds
    requires file { IsFileOf torrent.now (file_entry file.now) }
    requires some { from < to }
    requires inside { to ≤ pieces_in torrent.now (file_entry file.now) }
    ensures first { result.first ≡ file.now.first_piece + from }
    ensures last { result.last ≡ file.now.first_piece + (to - 1) }
    ensures from { result.from ≡ torrent.now.piece_length * from }
    ensures to { result.to
        ≡ min (torrent.now.piece_length * (to - 1 + 1)) file.now.length - 1 }
{
    torrent.recall_sound();
    let piece_length = torrent.piece_length();
    Bounds {
        first: file.first_piece + from,
        last: file.first_piece + (to - 1),
        from: piece_length * from,
        to: (piece_length * to).min(file.length) - 1,
    }
}
