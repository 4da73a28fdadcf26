//! What a session makes of one message, as C sees it.

ghost use Rattle.std.specs.Prelude.{◌≡◌, ◌≢◌};
ghost use Rattle.c_layouts.specs.Verdicts.{HasVerdict};

use crate::blocks_info::{BlocksInfo, lay_out_blocks};
use crate::status::{DONE, refused_block, refused_hashes};
use session::Verdict;

/// What was made of a message: its kind, and the fields of that kind. The other fields stay as they
/// are.
#[repr(C)]
#[derive(Clone, Copy)]
pub struct VerdictInfo {
    pub kind: u32,
    pub id: u32,
    pub places: u64,
    pub blocks: BlocksInfo,
}

const STORED: u32 = 1;

pub(crate) const BLOCKS: u32 = 2;

const ANSWERED: u32 = 3;

const REJECTED: u32 = 4;

const REJECT_NOTED: u32 = 5;

const KEEP_ALIVE: u32 = 6;

const SKIPPED: u32 = 7;

const NOTED: u32 = 8;

const SENT: u32 = 9;

/// The status of a message, and what was made of it.
pub fn write_verdict(verdict: &Verdict, out: &mut VerdictInfo) -> u32
    ensures done { HasVerdict verdict.now result out.old out.new }
    ensures unwritten { result ≢ 0 → out.new ≡ out.old }
{
    match verdict {
        Verdict::HashRefused(refusal) => return refused_hashes(*refusal),
        Verdict::BlockRefused(refusal) => return refused_block(*refusal),
        Verdict::Stored(count) => {
            out.kind = STORED;
            out.places = *count;
        }
        Verdict::Blocks(blocks) => {
            out.kind = BLOCKS;
            out.blocks = lay_out_blocks(blocks);
        }
        Verdict::Skipped(id) => {
            out.kind = SKIPPED;
            out.id = u32::from(*id);
        }
        Verdict::Answered => out.kind = ANSWERED,
        Verdict::Rejected => out.kind = REJECTED,
        Verdict::RejectNoted => out.kind = REJECT_NOTED,
        Verdict::KeepAlive => out.kind = KEEP_ALIVE,
        Verdict::Noted => out.kind = NOTED,
        Verdict::Sent => out.kind = SENT,
    }
    DONE
}
