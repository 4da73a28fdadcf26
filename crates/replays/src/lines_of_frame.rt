//! What a replay prints of one frame: one line, or a line for each block.
ghost use Rattle.std.specs.Prelude.{◌≡◌, ◌<◌, [], None, length};
ghost use Rattle.benc.specs.Device.{Wrote};
ghost use Rattle.lines.specs.Table.{refused_row, row_of};
ghost use Rattle.replays.specs.ReplayRows.{IsOneLine, entry_lines_as, frame_entry_row, lines_as, message_verdict_row, refused_entry_row, report_row};

use crate::report::FrameReport;
use benc::DeviceFault;
use lines::{Line, LineSink, say};
use session::{BlockRefusal, Blocks, Verdict};

/// Writes the lines of the frame of this number.
#[tactic(auto, unfolding(crate::specs::ReplayRows::lines_as))]
#[inline(always)]
pub(crate) fn write_frame<L: LineSink>(
    report: &mut L,
    number: u64,
    frame: &FrameReport,
) -> Result<(), DeviceFault>
    ensures { Wrote (L.seen report.old) (L.seen report.new) result
        (lines_as L.spelled number frame.now) }
{
    match frame {
        FrameReport::Verdict(Verdict::Blocks(blocks)) => write_blocks(report, number, blocks),
        _ => say(&line_of_frame(number, frame), report),
    }
}

// The line of the frame of this number, which is no message of blocks.
#[inline(always)]
fn line_of_frame(number: u64, frame: &FrameReport) -> Line<'static>
    requires { IsOneLine frame.now }
    ensures { row_of result ≡ report_row number frame.now }
{
    match frame {
        FrameReport::Verdict(verdict) => line_of_verdict(number, verdict),
        FrameReport::BadFrame { id, len } => Line::BadFrame {
            frame: number,
            id: u64::from(*id),
            length: u64::from(*len),
        },
    }
}

fn line_of_verdict(number: u64, verdict: &Verdict) -> Line<'static>
    requires { IsOneLine (FrameReport.Verdict verdict.now) }
    ensures { row_of result ≡ message_verdict_row number verdict.now }
{
    match verdict {
        Verdict::Stored(count) => Line::Stored {
            frame: number,
            count: *count,
        },
        Verdict::HashRefused(why) => refused(number, "H", why.number(), why.name()),
        Verdict::Blocks(_) => unreachable!(),
        Verdict::BlockRefused(why) => refused(number, "P", why.number(), why.name()),
        Verdict::Answered => Line::Answered(number),
        Verdict::Rejected => Line::Rejected(number),
        Verdict::RejectNoted => Line::RejectNoted(number),
        Verdict::KeepAlive => Line::KeepAlive(number),
        Verdict::Skipped(id) => Line::Skipped {
            frame: number,
            id: u64::from(*id),
        },
        Verdict::Noted => Line::SentRequest(number),
        Verdict::Sent => Line::Sent(number),
    }
}

/// The line of a refusal in this frame: a letter, its number and its name.
pub(crate) fn refused(
    frame: u64,
    letter: &'static str,
    number: u32,
    name: &'static str,
) -> Line<'static>
    ensures { row_of result ≡ refused_row frame letter.now number name.now [] }
{
    Line::Refused {
        frame,
        letter,
        number: u64::from(number),
        name,
    }
}

// Writes a line for each block of the message in the frame of this number.
fn write_blocks<L: LineSink>(
    report: &mut L,
    number: u64,
    blocks: &Blocks,
) -> Result<(), DeviceFault>
    ensures { Wrote (L.seen report.old) (L.seen report.new) result
        (entry_lines_as L.spelled number blocks.now 0 blocks.now.refusals) }
{
    'entries: for entry in 0..blocks.len() {
        let line = line_of_entry(number, blocks, entry, blocks.refusal(entry));
        say(&line, report)?;
    }
    Ok(())
}

/// The line of an entry of the message in the frame of this number: a verified block's place, or
/// why it is refused. Condition: there are more than `entry` entries.
pub(crate) fn line_of_entry(
    number: u64,
    blocks: &Blocks,
    entry: usize,
    refusal: Option<BlockRefusal>,
) -> Line<'static>
    requires { entry < length blocks.now.refusals }
    ensures { row_of result ≡ frame_entry_row number blocks.now entry refusal }
{
    match refusal {
        None => line_of_verified(number, blocks, entry),
        Some(why) => line_of_refused(number, blocks, entry, why.number(), why.name()),
    }
}

fn line_of_verified(number: u64, blocks: &Blocks, entry: usize) -> Line<'static>
    requires { entry < length blocks.now.refusals }
    ensures { row_of result ≡ frame_entry_row number blocks.now entry None }
{
    let (file, block) = blocks.place(entry);
    Line::Verified {
        frame: number,
        file: file as u64,
        block,
    }
}

/// The line of an entry that is refused by this number and name, with its place if the message has
/// several. Condition: there are more than `entry` entries.
pub(crate) fn line_of_refused(
    frame: u64,
    blocks: &Blocks,
    entry: usize,
    number: u32,
    name: &'static str,
) -> Line<'static>
    requires { entry < length blocks.now.refusals }
    ensures { row_of result ≡ refused_entry_row frame blocks.now entry number name.now }
{
    if blocks.len() == 1 {
        return refused(frame, "P", number, name);
    }
    let (file, block) = blocks.place(entry);
    Line::RefusedAt {
        frame,
        letter: "P",
        number: u64::from(number),
        name,
        file: file as u64,
        block,
    }
}
