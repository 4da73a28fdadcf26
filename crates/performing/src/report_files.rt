//! The bytes of reports.
use crate::file_bytes::read_bytes;
use benc::{DeviceFault, Sink};
use folders::{FileVerdict, say_verdict};
use opening::Torrent;
use printing::Fault;
use real_files::System;

/// How many bytes the first line of a report and the lines behind those of its files have at most:
/// `part `, two numbers and an info-hash with what stands between them, ` bad` and a line feed;
/// `v1 bad ` and a number; and `part yes`.
const REST: u64 = 5 + 20 + 1 + 20 + 1 + 64 + 4 + 1 + 7 + 20 + 1 + 9;

/// How many bytes the line of a run of bad pieces has at most: `bad pieces `, two numbers,
/// ` bytes ` and two more, with what stands between them and a line feed.
const RUN: u64 = 11 + 20 + 1 + 20 + 7 + 20 + 1 + 20 + 1;

/// The bytes of each of these reports, and of one that is longer than any of this torrent the first
/// of them, one more than such a report has.
pub(crate) fn read_reports<'a>(
    system: &System,
    torrent: &Torrent<'_>,
    paths: &[&'a str],
) -> Result<Vec<Vec<u8>>, Fault<'a>> {
    let most = longest(torrent);
    let mut texts = Vec::new(system.alloc());
    for path in paths {
        let text = read_bytes(system, path, most.saturating_add(1))?;
        if texts.push(text).is_err() {
            return Err(Fault::NoMemory);
        }
    }
    Ok(texts)
}

// How many bytes the longest report of a part of this torrent has.
fn longest(torrent: &Torrent<'_>) -> u64 {
    let mut counter = Counter {
        count: REST,
        flushes: 0,
    };
    'files: for file in torrent.files() {
        let _ = say_verdict(FileVerdict::Bad(u64::MAX), file, &mut counter);
        let runs = most_runs(file.length, torrent.piece_length());
        counter.count = counter.count.saturating_add(runs.saturating_mul(RUN));
    }
    counter.count
}

// How many runs of bad pieces a file of this length has at most: between two is a good piece.
fn most_runs(length: u64, piece_length: u64) -> u64 {
    let pieces = length
        .checked_div(piece_length)
        .unwrap_or(0)
        .saturating_add(1);
    pieces.div_ceil(2)
}

// A sink that counts what is written.
#[derive(Drop)]
struct Counter {
    count: u64,
    flushes: u64,
}

impl Sink for Counter {
    ghost use Rattle.std.specs.Prelude.{None, true};

    // What was written is not known.
    ghost seen = { λ s. record {
      written = None;
      faults = 0;
      flushes = s.flushes;
      is_flushed = true;
    } };

    fn write(&mut self, buf: &[u8]) -> Result<usize, DeviceFault> {
        self.count = self.count.saturating_add(buf.len() as u64);
        Ok(buf.len())
    }

    fn flush(&mut self) -> Result<(), DeviceFault> {
        self.flushes = self.flushes.wrapping_add(1);
        Ok(())
    }

    fn failures(&self) -> u64 {
        0
    }
}
