//! The trees of a torrent, and their blocks.

ghost use Rattle.std.specs.Prelude.{◌≡◌, ◌↔◌, IsTrue};
ghost use Rattle.hashtree.specs.Tree.{block_count};
ghost use Rattle.btcheck_c.specs.Taken.{HasTreeBlock};

use hashtree::BLOCK_LENGTH;
use opening::Torrent;

/// Whether there are more than `tree` trees, and the files of that one have more than `block`
/// blocks.
pub(crate) fn has_block(torrent: &Torrent<'_>, tree: usize, block: u64) -> bool
    ensures { IsTrue result ↔ HasTreeBlock torrent.now tree block }
{
    match torrent.trees().get(tree) {
        None => false,
        Some(info) => block < blocks_in(info.length),
    }
}

// How many blocks a file of this length has.
fn blocks_in(length: u64) -> u64
    ensures { result ≡ block_count length }
{
    length.div_ceil(BLOCK_LENGTH)
}
