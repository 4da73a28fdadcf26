//! `show --long`: what all files of a torrent come to.
use crate::sizes::{all_bytes, all_pieces};
use arrayvec::ArrayString;
use benc::WriteFault;
use lines::{Line, LineSink, Shown, say, say_last};
use opening::Torrent;
use printing::{Fault, OUTPUT};
use real_files::Amount;
use std::fmt::Write;

// An amount with its unit fits.
type Size = ArrayString<32>;

/// Says the sum of the lengths, how many pieces there are, and how many piece layers.
pub(crate) fn print_long<'a, L: LineSink>(
    torrent: &Torrent<'_>,
    out: &mut L,
) -> Result<(), Fault<'a>> {
    match say_lines(torrent, out) {
        Ok(()) => Ok(()),
        Err(_) => Err(Fault::Write(OUTPUT)),
    }
}

fn say_lines<L: LineSink>(torrent: &Torrent<'_>, out: &mut L) -> Result<(), WriteFault> {
    let bytes = all_bytes(torrent);
    let (total, each) = (size_of(bytes), size_of(torrent.piece_length()));
    let total = Shown::Total {
        bytes,
        size: &total,
    };
    let pieces = Shown::Pieces {
        count: all_pieces(torrent),
        size: &each,
    };
    say(&Line::Shown(total), out)?;
    say(&Line::Shown(pieces), out)?;
    say_last(&Line::Shown(Shown::Layers(layers(torrent))), out)
}

fn size_of(bytes: u64) -> Size {
    let mut text = Size::new();
    let _ = write!(text, "{}", Amount(bytes));
    text
}

// How many piece layers there are.
fn layers(torrent: &Torrent<'_>) -> u64 {
    torrent
        .trees()
        .iter()
        .filter(|tree| !tree.layer.is_empty())
        .count() as u64
}
