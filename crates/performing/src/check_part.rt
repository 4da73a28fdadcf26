//! `check --part`: one part of a check.
use crate::folder_hints::hint_at_folder;
use crate::hints::are_told;
use crate::printed::{refuse, say_to};
use crate::sizes::bytes_in;
use crate::told_lengths::ToldLengths;
use crate::torrent_file::{open_torrent, read_torrent};
use crate::verdict_counts::VerdictCounts;
use crate::watched::Watched;
use actions::CheckPart;
use commands::part_checks;
use lines::LineSink;
use opening::Torrent;
use parts::Places;
use printing::Fault;
use real_files::{Folder, Progress, StandardOutput, System};

/// Checks one part of a torrent's files, and prints what `join` needs of it. With its bad pieces a
/// terminal gets each line as soon as it is known, all else gets full buffers. Gives the exit
/// status.
pub(crate) fn perform_check_part<'a>(
    system: &System,
    asked: &CheckPart<'a>,
) -> Result<u8, Fault<'a>> {
    let bytes = read_torrent(system, asked.torrent)?;
    let out = if asked.bad {
        StandardOutput::live(system)?
    } else {
        StandardOutput::buffered(system)?
    };
    match open_torrent(system, bytes.as_slice()) {
        Ok(torrent) => {
            let places = Places::of_part(&torrent, asked.part.number - 1, asked.part.count);
            let progress = Progress::new(system.rt(), Some(bytes_in(&torrent, places)));
            say_to!(asked.json, out.below(&progress), lines => {
                report_part(system, &torrent, asked, &progress, lines)
            })
        }
        Err(refusal) => refuse(system, bytes.as_slice(), &refusal, asked.json, out),
    }
}

// Prints the report. Its lines are watched only if more is told of it on standard error.
fn report_part<'a, L: LineSink + Drop>(
    system: &System,
    torrent: &Torrent<'_>,
    asked: &CheckPart<'a>,
    progress: &Progress,
    mut lines: L,
) -> Result<u8, Fault<'a>> {
    if are_told(system) {
        return tell_of_part(system, torrent, asked, progress, lines);
    }
    judge_part(system, torrent, asked, progress, &mut lines)
}

// Prints the report, and on standard error what else is told of it.
fn tell_of_part<'a, L: LineSink + Drop>(
    system: &System,
    torrent: &Torrent<'_>,
    asked: &CheckPart<'a>,
    progress: &Progress,
    lines: L,
) -> Result<u8, Fault<'a>> {
    let told = ToldLengths::new(system, torrent, asked.dir, progress);
    let mut lines = Watched::new(Watched::new(lines, told), VerdictCounts::none());
    let status = judge_part(system, torrent, asked, progress, &mut lines)?;
    let counts = *lines.watch();
    if counts.found_none_of(counts.all()) {
        progress.clear();
        hint_at_folder(system, torrent, asked.dir, &["try check", asked.torrent]);
    }
    Ok(status)
}

fn judge_part<'a, L: LineSink>(
    system: &System,
    torrent: &Torrent<'_>,
    asked: &CheckPart<'a>,
    progress: &Progress,
    out: &mut L,
) -> Result<u8, Fault<'a>> {
    let mut folder = Folder::with_torrent(system, asked.dir, torrent, progress);
    if asked.bad {
        return part_checks::check_part_bad(system.alloc(), torrent, &mut folder, asked.part, out);
    }
    part_checks::check_part(system.alloc(), torrent, &mut folder, asked.part, out)
}
