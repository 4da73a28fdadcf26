//! How many bytes there are to read.
use opening::{File, Torrent};
use parts::Places;
use std::fs;

/// The length of a file, if it is a regular one.
pub(crate) fn length_of(file: &fs::File) -> Option<u64> {
    match file.metadata() {
        Ok(found) if found.is_file() => Some(found.len()),
        _ => None,
    }
}

/// How many bytes the files of a torrent have.
pub(crate) fn all_bytes(torrent: &Torrent<'_>) -> u64 {
    let mut all: u64 = 0;
    'files: for file in torrent.files() {
        all = all.saturating_add(file.length);
    }
    all
}

/// How many pieces the files of a torrent have.
pub(crate) fn all_pieces(torrent: &Torrent<'_>) -> u64 {
    let mut all: u64 = 0;
    'files: for file in torrent.files() {
        let pieces = file.length.div_ceil(torrent.piece_length().max(1));
        all = all.saturating_add(pieces);
    }
    all
}

/// How many bytes the files of a torrent have in these places.
pub(crate) fn bytes_in(torrent: &Torrent<'_>, places: Places) -> u64 {
    let mut all: u64 = 0;
    'files: for file in torrent.files() {
        let from = bytes_before(torrent, file, places.from);
        all = all.saturating_add(bytes_before(torrent, file, places.to).saturating_sub(from));
    }
    all
}

// How many bytes of a file stand before this place.
fn bytes_before(torrent: &Torrent<'_>, file: &File<'_>, place: u64) -> u64 {
    let pieces = place.saturating_sub(file.first_piece);
    pieces
        .saturating_mul(torrent.piece_length())
        .min(file.length)
}
