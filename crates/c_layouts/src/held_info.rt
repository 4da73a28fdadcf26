//! What is held of the blocks of one piece message, and what became of blocks that were held, as C
//! sees it.

ghost use Rattle.std.specs.Prelude.{◌≡◌, ◌≢◌, ◌<◌};
ghost use Rattle.c_layouts.specs.Held.{dropped_info, run_info, with_hold, HasSettled, IsUnheld};

use crate::blocks_info::{BlocksInfo, lay_out_blocks};
use crate::status::{BAD_PIECE, DONE, HELD, NO_MEMORY};
use holdings::{Hold, Run, Settled};
use session::Blocks;

// The most blocks that one piece message carries.
pub(crate) const MOST_BLOCKS: usize = 17;

/// Blocks of a tree, from the first to the last. Where there are none, the tree's number is
/// 2^64 - 1.
#[repr(C)]
#[derive(Clone, Copy)]
pub struct RunInfo {
    pub tree: u64,
    pub first: u64,
    pub last: u64,
}

// No blocks.
const NO_RUN: RunInfo = RunInfo {
    tree: u64::MAX,
    first: 0,
    last: 0,
};

/// The blocks of a piece message, and for each the piece that gave way when its digest was held.
#[repr(C)]
#[derive(Clone, Copy)]
pub struct HeldInfo {
    pub blocks: BlocksInfo,
    pub dropped: [RunInfo; MOST_BLOCKS],
}

/// The blocks of a piece message, of which nothing is held.
pub fn lay_out_unheld(blocks: &Blocks) -> HeldInfo
    ensures { IsUnheld blocks.now result }
{
    HeldInfo {
        blocks: lay_out_blocks(blocks),
        dropped: [NO_RUN; MOST_BLOCKS],
    }
}

/// Writes what became of the block of an entry that was to be held.
pub fn write_hold(hold: Hold, entry: usize, out: &mut HeldInfo)
    requires { entry < 17 }
    ensures { out.new ≡ with_hold out.old entry hold }
{
    match hold {
        Hold::Known => {}
        Hold::NoMemory => out.blocks.statuses[entry] = NO_MEMORY,
        Hold::Held { dropped } => {
            out.blocks.statuses[entry] = HELD;
            out.dropped[entry] = lay_out_dropped(dropped);
        }
    }
}

/// The status of a settling, whose blocks are written.
pub fn write_settled(settled: &Settled, run: &mut RunInfo) -> u32
    ensures { HasSettled settled.now result run.new }
{
    match settled {
        Settled::Proved(blocks) => {
            *run = lay_out_run(blocks);
            DONE
        }
        Settled::False(blocks) => {
            *run = lay_out_run(blocks);
            BAD_PIECE
        }
    }
}

// The piece that gave way, if one did.
fn lay_out_dropped(dropped: Option<Run>) -> RunInfo
    ensures { result ≡ dropped_info dropped }
{
    match dropped {
        None => NO_RUN,
        Some(run) => lay_out_run(&run),
    }
}

fn lay_out_run(run: &Run) -> RunInfo
    ensures { result ≡ run_info run.now }
{
    RunInfo {
        tree: run.tree as u64,
        first: run.first,
        last: run.last,
    }
}
