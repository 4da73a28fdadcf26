//! Groups of blocks that are hashed side by side.

ghost use Rattle.std.specs.Prelude.{◌≡◌, ◌<◌, ◌++◌, length};

use hashtree::BLOCK_LENGTH;

/// As many bytes as eight blocks have, which are hashed side by side.
pub(crate) const GROUP: usize = 131_072;

/// The bytes that end the block that is open after this many bytes, with as many whole groups as
/// follow; and the bytes after them.
pub(crate) fn whole_groups(bytes: &[u8], taken: u64) -> (&[u8], &[u8])
    ensures all { result.0.now ++ result.1.now ≡ bytes.now }
    ensures few { length result.1.now < 131072 }
{
    let open = (BLOCK_LENGTH - taken % BLOCK_LENGTH) % BLOCK_LENGTH;
    let after = bytes.len().saturating_sub(open as usize);
    bytes.split_at(bytes.len() - after % GROUP)
}
