//! What a torrent has as a whole.

ghost use Rattle.std.specs.Prelude.{◌≡◌, ◌≤◌, length, MatchOption};
ghost use Rattle.c_layouts.specs.Places.{HasFilePieces};
ghost use Rattle.c_layouts.specs.Torrents.{torrent_piece_count};

use opening::Torrent;
use pieces::PieceLength;

/// How many pieces the torrent's files have together.
pub fn count_pieces(torrent: &Torrent<'_>) -> u64
    ensures { result ≡ torrent_piece_count torrent.now }
{
    torrent.recall_sound();
    let piece_length = PieceLength::new(torrent.piece_length()).unwrap();
    match torrent.files().last() {
        None => 0,
        Some(file) => file.first_piece + piece_length.pieces(file.length),
    }
}

/// The first piece of a file, and how many pieces it has; `None` if the torrent has no such file.
pub fn pieces_of_file(torrent: &Torrent<'_>, number: usize) -> Option<(u64, u64)>
    ensures { MatchOption result (length torrent.now.files ≤ number)
        (λ p. HasFilePieces torrent.now number p.0 p.1) }
{
    torrent.recall_sound();
    let piece_length = PieceLength::new(torrent.piece_length()).unwrap();
    match torrent.files().get(number) {
        None => None,
        Some(file) => Some((file.first_piece, piece_length.pieces(file.length))),
    }
}
