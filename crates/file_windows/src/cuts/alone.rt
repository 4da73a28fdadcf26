//! One cut by itself.

ghost use Rattle.std.specs.Prelude.{◌≡◌, ℕ, ◌+◌, ◌-◌, ◌≤◌, ◌++◌, List, length, replicate};
ghost use Rattle.sha1.specs.Sha1.{Holds, sha1};
ghost use Rattle.sha1_lanes.specs.Batches.{bytes_at, filled_at};

use sha1::Sha1;

// How many zeros are hashed at once.
const ZEROS: usize = 4096;

/// The digest of the cut of this size at this byte of a buffer, filled up with zeros to the piece
/// length. Conditions: it stands in the buffer, and is no longer than a piece.
pub(crate) fn digest_alone(
    buffer: &[u8],
    start: usize,
    size: usize,
    piece_length: usize,
) -> [u8; 20]
    requires inside { start + size ≤ length buffer.now }
    requires fits { size ≤ piece_length }
    ensures { result ≡ sha1 (filled_at buffer.now start size piece_length) }
{
    let mut hasher = Sha1::new();
    hasher.update(&buffer[start..start + size]);
    filled_up(hasher, size, piece_length)
}

/// The digest of this cut as it is, and the same. Conditions: as for [`digest_alone`].
pub(crate) fn digests_alone(
    buffer: &[u8],
    start: usize,
    size: usize,
    piece_length: usize,
) -> ([u8; 20], [u8; 20])
    requires inside { start + size ≤ length buffer.now }
    requires fits { size ≤ piece_length }
    ensures own { result.0 ≡ sha1 (bytes_at buffer.now start size) }
    ensures filled { result.1 ≡ sha1 (filled_at buffer.now start size piece_length) }
{
    let mut hasher = Sha1::new();
    hasher.update(&buffer[start..start + size]);
    let Ok(own) = hasher.clone() else {
        unreachable!();
    };
    (own.finalize(), filled_up(hasher, size, piece_length))
}

// The digest of a cut of this size that was taken, filled up with zeros to the piece length.
fn filled_up(mut hasher: Sha1, size: usize, piece_length: usize) -> [u8; 20]
    requires { size ≤ piece_length }
    ensures { (cut : List ℕ) → Holds hasher cut
        → result ≡ sha1 (cut ++ replicate (piece_length - size) 0) }
{
    let zeros = [0; ZEROS];
    let mut filled = size;
    'zeros: while filled < piece_length {
        let count = (piece_length - filled).min(ZEROS);
        hasher.update(&zeros[..count]);
        filled += count;
    }
    hasher.finalize()
}
