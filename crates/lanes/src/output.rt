//! Hash values put out as bytes (FIPS 180-4, 6.1.2 and 6.2.2).

ghost use Rattle.std.specs.Prelude.{◌≡◌, ℕ, ◌*◌, ◌<◌, [], slice_index_or};
ghost use Rattle.lanes.specs.Lanes.{bytes_in};
ghost use Rattle.lanes.specs.declared.words.TheConstants.{LANES};

use crate::words::{LANES, Words};

/// The digest of one message: its words, the high byte of each first. Condition: a digest has four
/// bytes for each word.
#[inline(always)]
pub fn digest_of<const COUNT: usize, const SIZE: usize>(
    state: &[Words; COUNT],
    message: usize,
) -> [u8; SIZE]
    requires message { message < LANES }
    requires size { SIZE ≡ 4 * COUNT }
    ensures { result ≡ bytes_in message state.now COUNT }
{
    let mut bytes = [0; SIZE];
    'words: for k in 0..COUNT {
        let words = state[k].to_array();
        let out = &mut bytes[..];
        out[4 * k..4 * k + 4].copy_from_slice(&words[message].to_be_bytes());
    }
    bytes
}

/// The digest of each message. Condition: a digest has four bytes for each word.
pub fn digests_of<const COUNT: usize, const SIZE: usize>(
    state: &[Words; COUNT],
) -> [[u8; SIZE]; LANES]
    requires { SIZE ≡ 4 * COUNT }
    ensures { (j : ℕ) → j < LANES
        → slice_index_or result j [] ≡ bytes_in j state.now COUNT }
{
    let mut digests = [[0; SIZE]; LANES];
    'messages: for j in 0..LANES {
        digests[j] = digest_of(state, j);
    }
    digests
}
