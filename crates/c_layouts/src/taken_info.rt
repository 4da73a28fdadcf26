//! What is made of a whole frame, as C sees it.

ghost use Rattle.std.specs.Prelude.{◌≡◌, ◌≢◌};
ghost use Rattle.c_layouts.specs.TakenFrames.{HasTakenStatus, fields_after, held_info_in, with_held};

use crate::asked::{Asked, lay_out};
use crate::held_info::{HeldInfo, MOST_BLOCKS, RunInfo};
use crate::status::DONE;
use crate::verdict_info::{BLOCKS, VerdictInfo, write_verdict};
use session::Verdict;
use wire::Message;

/// What was made of a frame: the verdict on its message, the five fields of a message that has
/// them, and for each block the piece that gave way when its digest was held. What the kind does
/// not name stays as it is.
#[repr(C)]
#[derive(Clone, Copy)]
pub struct TakenInfo {
    pub verdict: VerdictInfo,
    pub ask: Asked,
    pub dropped: [RunInfo; MOST_BLOCKS],
}

/// The status of a message, what was made of it, and its five fields if it has them.
pub fn write_taken(message: &Message<'_>, verdict: &Verdict, out: &mut TakenInfo) -> u32
    ensures done { HasTakenStatus message.now verdict.now result out.old out.new }
    ensures unwritten { result ≢ 0 → out.new ≡ out.old }
{
    let status = write_verdict(verdict, &mut out.verdict);
    if status == DONE {
        write_fields(message, &mut out.ask);
    }
    status
}

// Writes the five fields of a message that has them.
fn write_fields(message: &Message<'_>, out: &mut Asked)
    ensures { out.new ≡ fields_after message.now out.old }
{
    match message {
        Message::Request(ask) | Message::Hashes { ask, .. } | Message::Reject(ask) => {
            *out = lay_out(ask);
        }
        Message::Piece { .. } | Message::KeepAlive | Message::Other { .. } => {}
    }
}

/// The blocks of the struct, and what gave way for each, as calls on holdings have them.
pub fn held_of(out: &TakenInfo) -> HeldInfo
    ensures { result ≡ held_info_in out.now }
{
    HeldInfo {
        blocks: out.verdict.blocks,
        dropped: out.dropped,
    }
}

/// Writes the blocks of a message, some of which may be held now.
pub fn write_held(held: HeldInfo, out: &mut TakenInfo)
    ensures { out.new ≡ with_held out.old held }
{
    out.verdict.kind = BLOCKS;
    out.verdict.blocks = held.blocks;
    let dropped = held.dropped;
    out.dropped = dropped;
}
