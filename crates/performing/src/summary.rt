//! `check --summary`: the verdicts in numbers, and the speed.
use crate::verdict_counts::VerdictCounts;
use opening::Torrent;
use real_files::{Amount, Progress, System};
use std::io::Write;
use std::time::{Duration, Instant};

/// Prints how many files have each verdict, how many bytes were read, and how fast since this time.
/// What cannot be written is lost.
pub(crate) fn print_summary(
    system: &System,
    torrent: &Torrent<'_>,
    counts: VerdictCounts,
    progress: &Progress,
    start: Option<Instant>,
) {
    progress.clear();
    let mut out = system.rt().stderr();
    // Good files have no line with `--quiet`.
    let good = (torrent.files().len() as u64).saturating_sub(counts.not_good());
    let _ = writeln!(
        out,
        "summary: {good} good, {} missing, {} unreadable, {} wrong length, {} bad",
        counts.missing, counts.unreadable, counts.wrong_length, counts.bad
    );
    let (read, time) = (progress.read(), time_since(system, start));
    let _ = writeln!(
        out,
        "summary: {read} bytes read in {}.{:03} s, {}/s",
        time.as_secs(),
        time.subsec_millis(),
        Amount(rate(read, time))
    );
}

// Bytes a second.
fn rate(read: u64, time: Duration) -> u64 {
    let milliseconds = (time.as_secs().saturating_mul(1000)).saturating_add(
        time.subsec_millis() as u64,
    );
    read.saturating_mul(1000) / milliseconds.max(1)
}

// How long ago this was, as far as the clock says.
fn time_since(system: &System, start: Option<Instant>) -> Duration {
    match (start, Instant::now(system.rt())) {
        (Some(start), Ok(now)) => now.duration_since(start),
        _ => Duration::from_secs(0),
    }
}
