//! The lines of a report with its bad pieces.
ghost use Rattle.std.specs.Prelude.{◌≡◌, ◌+◌, ◌*◌, ◌≤◌, length};
ghost use Rattle.folders.specs.Verdicts.{IsFileOf};
ghost use Rattle.opening.specs.Seen.{file_entry};
ghost use Rattle.parts.specs.Parts.{piece_count as pieces_in, place_count};
ghost use Rattle.part_reports.specs.WholeLines.{SaysFile, SaysFiles, SaysMarkedReport};

use crate::marked_report::{BadPieces, MarkedReport};
use benc::{DeviceFault, WriteFault};
use folders::{FileVerdict, Lines, say_end, say_verdict};
use lines::{LineSink, finish_after};
use opening::{File, Torrent};
use parts::{PieceBits, has_runs, piece_count, say_runs};

/// Says what `say_check_with_bad_pieces` says of a torrent's folder, and flushes: a line for each
/// file, and behind that of one that is bad or has another length the line `bad pieces FIRST LAST
/// bytes FROM-TO` of each maximal run of its bad pieces, in ascending order; for a hybrid a line on
/// its version 1 pieces; and `yes` or `no`. It takes no memory. After `WriteFault` a prefix of
/// these lines went out. Conditions: the report has a verdict for each file of the torrent, and a
/// mark for each piece.
pub fn say_marked_report<L: LineSink>(
    joined: &MarkedReport,
    torrent: &Torrent<'_>,
    out: &mut L,
) -> Result<(), WriteFault>
    requires files { length joined.now.report.files.items ≡ length torrent.now.files }
    requires room { place_count torrent.now ≤ 8 * length joined.now.bad.bits.items + 1 }
    ensures { SaysMarkedReport L.spelled torrent.now joined.now (L.seen out.old)
        (L.seen out.new) result }
{
    say_files(joined, torrent, out)?;
    let said = say_end(&joined.report, Lines::All, out);
    finish_after(out, said)
}

// Says the lines of all files.
fn say_files<L: LineSink>(
    joined: &MarkedReport,
    torrent: &Torrent<'_>,
    out: &mut L,
) -> Result<(), DeviceFault>
    requires files { length joined.now.report.files.items ≡ length torrent.now.files }
    requires room { place_count torrent.now ≤ 8 * length joined.now.bad.bits.items + 1 }
    ensures { SaysFiles L.spelled torrent.now joined.now (L.seen out.old)
        (L.seen out.new) result }
{
    torrent.recall_sound();
    let files = torrent.files();
    'files: for i in 0..files.len() {
        say_file(joined.report.files[i], &files[i], torrent, &joined.bad, out)?;
    }
    Ok(())
}

// Says the line of a file, and behind it those of its runs, if they are printed.
fn say_file<L: LineSink>(
    verdict: FileVerdict,
    file: &File<'_>,
    torrent: &Torrent<'_>,
    bad: &BadPieces,
    out: &mut L,
) -> Result<(), DeviceFault>
    requires file { IsFileOf torrent.now (file_entry file.now) }
    requires room { let f = file_entry file.now in
        f.first_piece + pieces_in torrent.now f ≤ 8 * length bad.now.bits.items }
    ensures { SaysFile L.spelled torrent.now bad.now (file_entry file.now) verdict
        (L.seen out.old) (L.seen out.new) result }
{
    say_verdict(verdict, file, out)?;
    if has_runs(verdict) {
        let bits = PieceBits {
            bits: &bad.bits,
            first: file.first_piece as usize,
        };
        say_runs(torrent, file, 0, piece_count(torrent, file), bits, out)?;
    }
    Ok(())
}
