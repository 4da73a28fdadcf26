//! What a session makes of the blocks of one piece message, as C sees it.

ghost use Rattle.std.specs.Prelude.{◌≡◌, ◌≢◌, length};
ghost use Rattle.c_layouts.specs.Blocks.{entry_status, AreBlocksLaidOut, HasBlocksStatus};
ghost use Rattle.partial_tree.specs.declared.refusal.BlockRefusal.{BlockRefusal as Why};

use crate::status::{DONE, NO_SUCH, refused_block};
use partial_tree::BlockRefusal;
use session::Blocks;

// The most blocks that one piece message carries.
const MOST_BLOCKS: usize = 17;

/// Consecutive blocks of a file, from the first one on, and the status of each. Statuses past the
/// count say that there is no such block.
#[repr(C)]
#[derive(Clone, Copy)]
pub struct BlocksInfo {
    pub file: u64,
    pub first: u64,
    pub count: u64,
    pub statuses: [u32; MOST_BLOCKS],
}

/// The status of the blocks of a piece message, and what is made of each.
pub fn write_blocks(answer: Result<Blocks, BlockRefusal>, out: &mut BlocksInfo) -> u32
    ensures done { HasBlocksStatus answer result out.new }
    ensures unwritten { result ≢ 0 → out.new ≡ out.old }
{
    match answer {
        Ok(blocks) => {
            *out = lay_out_blocks(&blocks);
            DONE
        }
        Err(refusal) => refused_block(refusal),
    }
}

/// The same entries, for C.
pub fn lay_out_blocks(blocks: &Blocks) -> BlocksInfo
    ensures { AreBlocksLaidOut blocks.now result }
{
    let mut statuses = [NO_SUCH; MOST_BLOCKS];
    'entries: for entry in 0..blocks.len() {
        statuses[entry] = status_of(blocks.refusal(entry));
    }
    let (file, first) = if blocks.len() == 0 {
        (0, 0)
    } else {
        blocks.place(0)
    };
    BlocksInfo {
        file: file as u64,
        first,
        count: blocks.len() as u64,
        statuses,
    }
}

// The status of one block.
fn status_of(refusal: Option<BlockRefusal>) -> u32
    ensures { result ≡ entry_status refusal }
{
    match refusal {
        None => DONE,
        Some(refusal) => refused_block(refusal),
    }
}
