//! The lines of a part's report.
ghost use Rattle.std.specs.Prelude.{◌≡◌, ◌<◌, ◌++◌, length, map, is_some, MatchOption};
ghost use Rattle.benc.specs.Device.{Wrote, WroteAndFlushed};
ghost use Rattle.lines.specs.Reading.{BeginsWith};
ghost use Rattle.lines.specs.Rows.{spell};
ghost use Rattle.lines.specs.Table.{row_of};
ghost use Rattle.lines.specs.Texts.{text_of};
ghost use Rattle.opening.specs.Seen.{file_entry};
ghost use Rattle.folders.specs.Verdicts.{IsFileOf};
ghost use Rattle.parts.specs.MarkedLines.{marked_head_row};
ghost use Rattle.parts.specs.PartLines.{has_place, head_row, held_rows, part_answer_row, part_end_rows, part_rows, place_rows};

use crate::places::{Places, touches};
use benc::{DeviceFault, WriteFault};
use folders::{FileVerdict, Report, say_verdict, say_version1};
use lines::{Line, LineSink, Parted, finish_after, say, strip_line};
use opening::{File, Torrent};

/// Says what the check of one of this many parts found, numbered from 0, and flushes: the line
/// `part I/N INFOHASH` with the part's number from 1 on, the number of parts and the version 2 info
/// hash; the line of each file that has a place in the part, as `print_report` writes it; for a
/// hybrid a line on its version 1 pieces; and `part yes` or `part no`. It takes no memory. After
/// `WriteFault` a prefix of these lines went out. Conditions: there is such a part, and the report
/// has a verdict for each file of the torrent, and one on the version 1 pieces exactly if the
/// torrent is a hybrid.
pub fn say_part<L: LineSink>(
    report: &Report,
    torrent: &Torrent<'_>,
    part: u64,
    parts: u64,
    out: &mut L,
) -> Result<(), WriteFault>
    requires there { part < parts }
    requires files { length report.now.files.items ≡ length torrent.now.files }
    requires hybrid { is_some report.now.v1 ≡ is_some torrent.now.v1 }
    ensures { WroteAndFlushed (L.seen out.old) (L.seen out.new) result (spell L.spelled
        (part_rows torrent.now part parts report.now.files.items report.now.v1)) }
{
    let said = say_all(report, torrent, part, parts, out);
    finish_after(out, said)
}

fn say_all<L: LineSink>(
    report: &Report,
    torrent: &Torrent<'_>,
    part: u64,
    parts: u64,
    out: &mut L,
) -> Result<(), DeviceFault>
    requires there { part < parts }
    requires files { length report.now.files.items ≡ length torrent.now.files }
    ensures { Wrote (L.seen out.old) (L.seen out.new) result (spell L.spelled
        (part_rows torrent.now part parts report.now.files.items report.now.v1)) }
{
    say_head(torrent, part, parts, out)?;
    let places = Places::of_part(torrent, part, parts);
    say_files(&report.files, torrent.files(), torrent, places, out)?;
    say_end(report, out)
}

// Says the first line of a part's report. Condition: there is such a part.
fn say_head<L: LineSink>(
    torrent: &Torrent<'_>,
    part: u64,
    parts: u64,
    out: &mut L,
) -> Result<(), DeviceFault>
    requires there { part < parts }
    ensures { Wrote (L.seen out.old) (L.seen out.new) result
        (L.spelled (head_row torrent.now part parts)) }
{
    let hash = torrent.info_hash_v2();
    let head = Parted::Part {
        part: part + 1,
        parts,
        hash: &hash,
    };
    say(&Line::Parted(head), out)
}

/// Says the first line of a marked report. Condition: there is such a part.
pub(crate) fn say_bad_head<L: LineSink>(
    torrent: &Torrent<'_>,
    part: u64,
    parts: u64,
    out: &mut L,
) -> Result<(), DeviceFault>
    requires there { part < parts }
    ensures { Wrote (L.seen out.old) (L.seen out.new) result
        (L.spelled (marked_head_row torrent.now part parts)) }
{
    let hash = torrent.info_hash_v2();
    let head = Parted::BadPart {
        part: part + 1,
        parts,
        hash: &hash,
    };
    say(&Line::Parted(head), out)
}

// Says the lines of the files that have one of these places.
fn say_files<L: LineSink>(
    verdicts: &[FileVerdict],
    files: &[File<'_>],
    torrent: &Torrent<'_>,
    places: Places,
    out: &mut L,
) -> Result<(), DeviceFault>
    requires count { length verdicts.now ≡ length files.now }
    requires of { map file_entry files.now ≡ torrent.now.files }
    ensures { Wrote (L.seen out.old) (L.seen out.new) result (spell L.spelled
        (place_rows torrent.now places verdicts.now (map file_entry files.now))) }
{
    'files: for i in 0..files.len() {
        say_held(verdicts[i], &files[i], torrent, places, out)?;
    }
    Ok(())
}

// Says the line of a file, if it has one of these places.
fn say_held<L: LineSink>(
    verdict: FileVerdict,
    file: &File<'_>,
    torrent: &Torrent<'_>,
    places: Places,
    out: &mut L,
) -> Result<(), DeviceFault>
    requires { IsFileOf torrent.now (file_entry file.now) }
    ensures { Wrote (L.seen out.old) (L.seen out.new) result (spell L.spelled (held_rows
        (has_place torrent.now places (file_entry file.now)) verdict (file_entry file.now))) }
{
    let is_held = touches(torrent, file, places);
    say_if(is_held, verdict, file, out)
}

// Says the line of a file, if it is held.
fn say_if<L: LineSink>(
    is_held: bool,
    verdict: FileVerdict,
    file: &File<'_>,
    out: &mut L,
) -> Result<(), DeviceFault>
    ensures { Wrote (L.seen out.old) (L.seen out.new) result
        (spell L.spelled (held_rows is_held verdict (file_entry file.now))) }
{
    if is_held {
        say_verdict(verdict, file, out)
    } else {
        Ok(())
    }
}

/// Says what follows the lines of the files.
pub(crate) fn say_end<L: LineSink>(report: &Report, out: &mut L) -> Result<(), DeviceFault>
    ensures { Wrote (L.seen out.old) (L.seen out.new) result
        (spell L.spelled (part_end_rows report.now.files.items report.now.v1)) }
{
    say_version1(&report.v1, out)?;
    say_answer(report.yes(), out)
}

fn say_answer<L: LineSink>(yes: bool, out: &mut L) -> Result<(), DeviceFault>
    ensures { Wrote (L.seen out.old) (L.seen out.new) result
        (L.spelled (part_answer_row yes)) }
{
    say(&answer(yes), out)
}

/// What stands behind the last line of a part's report, if a text begins with it. It takes no
/// memory.
pub fn strip_answer<'a>(yes: bool, text: &'a [u8]) -> Option<&'a [u8]>
    ensures { let line = text_of (part_answer_row yes) in
        MatchOption result (BeginsWith line text.now → ⊥) (λ rest. text.now ≡ line ++ rest.now) }
{
    strip_line(&answer(yes), text)
}

// The last line.
fn answer(yes: bool) -> Line<'static>
    ensures { row_of result ≡ part_answer_row yes }
{
    if yes {
        Line::Parted(Parted::Yes)
    } else {
        Line::Parted(Parted::No)
    }
}
