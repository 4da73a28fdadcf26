//! `check`: whether a folder holds the files of a torrent.
use crate::extra::print_extra;
use crate::folder_hints::hint_at_folder;
use crate::hints::are_told;
use crate::printed::{refuse, say_to};
use crate::sizes::all_bytes;
use crate::summary::print_summary;
use crate::told_lengths::ToldLengths;
use crate::torrent_file::{open_torrent, read_torrent};
use crate::verdict_counts::VerdictCounts;
use crate::watched::Watched;
use actions::Check;
use commands::checks;
use folders::Lines;
use lines::LineSink;
use opening::Torrent;
use printing::Fault;
use real_files::{Folder, Progress, StandardOutput, System, TerminalPace};
use std::time::Instant;

/// Checks that a folder holds the files of a torrent. A terminal gets a line at a time, at the pace
/// of [`TerminalPace`]; all else gets full buffers. Gives the exit status.
pub(crate) fn perform_check<'a>(system: &System, asked: &Check<'a>) -> Result<u8, Fault<'a>> {
    let bytes = read_torrent(system, asked.torrent)?;
    let out = StandardOutput::live(system)?;
    match open_torrent(system, bytes.as_slice()) {
        Ok(torrent) => {
            let progress = Progress::new(system.rt(), Some(all_bytes(&torrent)));
            say_to!(asked.json, out.below(&progress), lines => {
                report_folder(system, &torrent, asked, &progress, lines)
            })
        }
        Err(refusal) => refuse(system, bytes.as_slice(), &refusal, asked.json, out),
    }
}

// Prints the report. Its lines are watched only if more is told of it on standard error.
fn report_folder<'a, L: LineSink + Drop>(
    system: &System,
    torrent: &Torrent<'_>,
    asked: &Check<'a>,
    progress: &Progress,
    mut lines: L,
) -> Result<u8, Fault<'a>> {
    if asked.summary || are_told(system) {
        return tell_of_folder(system, torrent, asked, progress, lines);
    }
    judge_folder(system, torrent, asked, progress, &mut lines)
}

// Prints the report, and on standard error what else is told of it.
fn tell_of_folder<'a, L: LineSink + Drop>(
    system: &System,
    torrent: &Torrent<'_>,
    asked: &Check<'a>,
    progress: &Progress,
    lines: L,
) -> Result<u8, Fault<'a>> {
    let told = ToldLengths::new(system, torrent, asked.dir, progress);
    let mut lines = Watched::new(Watched::new(lines, told), VerdictCounts::none());
    let start = if asked.summary {
        Instant::now(system.rt()).ok()
    } else {
        None
    };
    let status = judge_folder(system, torrent, asked, progress, &mut lines)?;
    let counts = *lines.watch();
    if counts.found_none_of(torrent.files().len() as u64) {
        progress.clear();
        hint_at_folder(system, torrent, asked.dir, &["try check", asked.torrent]);
    }
    if asked.summary {
        print_summary(system, torrent, counts, progress, start);
    }
    Ok(status)
}

fn judge_folder<'a, L: LineSink>(
    system: &System,
    torrent: &Torrent<'_>,
    asked: &Check<'a>,
    progress: &Progress,
    out: &mut L,
) -> Result<u8, Fault<'a>> {
    if asked.extra {
        print_extra(system, torrent, asked.dir, out)?;
    }
    let mut folder = Folder::with_torrent(system, asked.dir, torrent, progress);
    let lines = if asked.quiet {
        Lines::NotGood
    } else {
        Lines::All
    };
    if asked.bad {
        return checks::check_bad(system.alloc(), torrent, &mut folder, lines, out);
    }
    let mut pace = TerminalPace::new(system);
    checks::check(system.alloc(), torrent, &mut folder, lines, &mut pace, out)
}
