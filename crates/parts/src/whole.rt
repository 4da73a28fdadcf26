//! The check of a whole folder, also with a report as it goes: each file is opened once and read
//! once, for its tree and for its version 1 pieces together.
ghost use Rattle.std.specs.Prelude.{◌≡◌, IfOk, OnErr, IfErr};
ghost use Rattle.benc.specs.Device.{SentAndFlushed};
ghost use Rattle.chains.specs.Chain.{Chain};
ghost use Rattle.folders.specs.Printed.{report_rows};
ghost use Rattle.folders.specs.Shelf.{more};
ghost use Rattle.folders.specs.Stopping.{BreaksOffAs};
ghost use Rattle.folders.specs.Verdicts.{HasVerdicts, IsTrueOfFolder, unreadable_count};
ghost use Rattle.folders.specs.Visits.{Visits};
ghost use Rattle.lines.specs.Rows.{spell};
ghost use Rattle.parts.specs.Checking.{ChecksAndSays, shelf_and_sink};
ghost use Rattle.parts.specs.Telling.{TellsWhole};
ghost use Rattle.parts.specs.declared.telling.Telling.TheVariants as telling;

use crate::all_files::visit_whole;
use crate::telling::Telling;
use folders::{Lines, NoMemory, Pace, Report, Shelf, Unhurried, say_end};
use lines::{LineSink, Nowhere, OutFault as CheckFault, finish_after};
use opening::Torrent;
use std::alloc::Global;

/// Checks that the shelf holds the torrent's files, each under its own path (BEP 52, "pieces root",
/// "piece layers"; for a hybrid BEP 3, "pieces", and BEP 47 too). Each path is opened once, and
/// each file is read once, one byte past its stated length at most, and handed back. Files that the
/// torrent does not name are not looked at.
///
/// It takes memory for the report before the first path is opened: if that is refused, the shelf
/// stays as it is. If memory for its buffer is refused, it uses a smaller one; a file with long
/// pieces of a hybrid takes memory in which they wait to be hashed side by side, and if that is
/// refused, they are hashed one by one. A file is unreadable if its opening or one of its own reads
/// failed, and the shelf's count of failures grows by the number of these files.
pub fn check<S: Shelf>(
    alloc: Global,
    torrent: &Torrent<'_>,
    shelf: &mut S,
) -> Result<Report, NoMemory>
    ensures verdicts { IfOk result (λ r. HasVerdicts torrent.now r.files.items r.v1) }
    ensures are_true { IfOk result (λ r.
        IsTrueOfFolder torrent.now (S.contents shelf.old).under r.files.items r.v1) }
    ensures once { IfOk result (λ r. Chain (Visits S.Shelf S.File.seen torrent.now) shelf.old
        torrent.now.files r.files.items shelf.new) }
    ensures unreadable { IfOk result (λ r.
        S.faults shelf.new ≡ more (S.faults shelf.old) (unreadable_count r.files.items)) }
    ensures readable { IfOk result (λ r.
        S.faults shelf.new ≡ S.faults shelf.old → unreadable_count r.files.items ≡ 0) }
    ensures no_memory { OnErr result (shelf.new ≡ shelf.old) }
    ensures stays { S.contents shelf.new ≡ S.contents shelf.old }
{
    let mut nowhere = Nowhere::new();
    let telling = Telling::Nothing;
    match visit_whole(alloc, torrent, shelf, telling, &mut Unhurried, &mut nowhere) {
        Ok(report) => Ok(report),
        Err(CheckFault::NoMemory) => Err(NoMemory),
        Err(CheckFault::Write) => unreachable!(),
    }
}

/// Checks that the shelf holds the torrent's files, as `check` does, and says the lines that are
/// wanted, to anything that takes lines: each file's as soon as the file is done, or the small
/// files that are read with it, and at last what `print_report` writes behind them. Then it flushes
/// once. All lines together are those of `print_report`, less those that are not wanted. Small
/// files are read together only as long as the pace lets their lines wait; what is said, and in
/// which order, does not depend on the pace.
///
/// # Errors
///
/// `NoMemory`: memory for the report was refused before the first path was opened, and nothing was
/// written. `Write`: the sink failed in a file's line, behind all those of the files before it, and
/// at most 63 files behind it were visited, which are read with it; or it failed behind the last
/// file's line or at the flush.
pub fn say_check<S: Shelf, L: LineSink, P: Pace>(
    alloc: Global,
    torrent: &Torrent<'_>,
    shelf: &mut S,
    lines: Lines,
    pace: &mut P,
    out: &mut L,
) -> Result<Report, CheckFault>
    ensures verdicts { IfOk result (λ r. HasVerdicts torrent.now r.files.items r.v1) }
    ensures are_true { IfOk result (λ r.
        IsTrueOfFolder torrent.now (S.contents shelf.old).under r.files.items r.v1) }
    ensures once { IfOk result (λ r. Chain (Visits S.Shelf S.File.seen torrent.now) shelf.old
        torrent.now.files r.files.items shelf.new) }
    ensures unreadable { IfOk result (λ r.
        S.faults shelf.new ≡ more (S.faults shelf.old) (unreadable_count r.files.items)) }
    ensures readable { IfOk result (λ r.
        S.faults shelf.new ≡ S.faults shelf.old → unreadable_count r.files.items ≡ 0) }
    ensures report { IfOk result (λ r. SentAndFlushed (L.seen out.old) (L.seen out.new)
        (spell L.spelled (report_rows lines torrent.now.files r.files.items r.v1))) }
    ensures cut { IfErr result (λ e. e ≡ CheckFault.Write → BreaksOffAs S.Shelf S.File.seen
        L.spelled torrent.now shelf.old lines (L.seen out.old) (L.seen out.new) shelf.new) }
    ensures in_turn { ChecksAndSays S.Shelf S.File.seen L.spelled torrent.now
        (telling.Line lines) lines (shelf_and_sink shelf.old (L.seen out.old))
        (shelf_and_sink shelf.new (L.seen out.new)) result }
    ensures no_memory { IfErr result (λ e. e ≡ CheckFault.NoMemory → shelf.new ≡ shelf.old) }
    ensures silent { IfErr result (λ e. e ≡ CheckFault.NoMemory
        → L.seen out.new ≡ L.seen out.old) }
    ensures stays { S.contents shelf.new ≡ S.contents shelf.old }
{
    say_files(
        alloc,
        torrent,
        shelf,
        Telling::Line(lines),
        lines,
        pace,
        out,
    )
}

/// Checks that the shelf holds the torrent's files, as `check` does, and says the lines that are
/// wanted, to anything that takes lines: each file's as soon as the file is done, and behind the
/// line of one that is bad or has another length the line `bad pieces FIRST LAST bytes FROM-TO` of
/// each maximal run of its pieces that are bad (BEP 52, "pieces root", "piece layers"), in
/// ascending order. FIRST and LAST are the torrent's numbers of pieces, FROM and TO offsets in the
/// file, both included. A piece that the content does not have whole is bad; what lies after the
/// file's stated length is no piece. At last it says what `print_report` writes behind the files'
/// lines, and flushes once.
///
/// Each file is opened and read once, as by `check`. What it cannot do without is taken before the
/// first path is opened: memory for the report, and a bit for each piece of the file that has the
/// most.
///
/// # Errors
///
/// `NoMemory`: nothing was opened or written. `Write`: the sink failed. What the files before print
/// went out, and a prefix of what this file prints; no later file was opened. Or it failed behind
/// the last file.
pub fn say_check_with_bad_pieces<S: Shelf, L: LineSink>(
    alloc: Global,
    torrent: &Torrent<'_>,
    shelf: &mut S,
    lines: Lines,
    out: &mut L,
) -> Result<Report, CheckFault>
    ensures checks { ChecksAndSays S.Shelf S.File.seen L.spelled torrent.now
        (telling.LineAndRuns lines) lines (shelf_and_sink shelf.old (L.seen out.old))
        (shelf_and_sink shelf.new (L.seen out.new)) result }
    ensures stays { S.contents shelf.new ≡ S.contents shelf.old }
{
    say_files(
        alloc,
        torrent,
        shelf,
        Telling::LineAndRuns(lines),
        lines,
        &mut Unhurried,
        out,
    )
}

// Checks all files at this pace, and says what is wanted of each, and then what follows; and
// flushes.
// Condition: what is wanted is of whole files.
fn say_files<S: Shelf, L: LineSink, P: Pace>(
    alloc: Global,
    torrent: &Torrent<'_>,
    shelf: &mut S,
    telling: Telling,
    lines: Lines,
    pace: &mut P,
    out: &mut L,
) -> Result<Report, CheckFault>
    requires whole { TellsWhole telling }
    ensures checks { ChecksAndSays S.Shelf S.File.seen L.spelled torrent.now telling
        lines (shelf_and_sink shelf.old (L.seen out.old))
        (shelf_and_sink shelf.new (L.seen out.new)) result }
    ensures stays { S.contents shelf.new ≡ S.contents shelf.old }
{
    let report = visit_whole(alloc, torrent, shelf, telling, pace, out)?;
    let said = say_end(&report, lines, out);
    finish_after(out, said)?;
    Ok(report)
}
