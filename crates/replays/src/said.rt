//! What is told of a frame if blocks are held that cannot be proved yet, in lines.
ghost use Rattle.std.specs.Prelude.{◌≡◌, ◌+◌, ◌<◌, [], ◌∷◌, ◌||◌, length};
ghost use Rattle.benc.specs.Device.{Wrote};
ghost use Rattle.holdings.specs.declared.holding.Hold.TheVariants as Hold;
ghost use Rattle.lines.specs.Table.{dropped_row, held_row, row_of};
ghost use Rattle.replays.specs.ByPieces.{SaysAll};
ghost use Rattle.replays.specs.ReplayRows.{hold_lines_as, lacks_row, said_lines_as, settled_row};
ghost use Rattle.replays.specs.SaidLines.{IsOfEntry, hold_lacks, hold_refuses, said_lacks, said_refuses};

use crate::lines_of_frame::{line_of_entry, line_of_refused, refused, write_frame};
use crate::report::{FrameReport, Outcome};
use benc::DeviceFault;
use holdings::{Hold, Run, Settled};
use lines::{Line, LineSink};
use session::{BlockRefusal, Blocks};

/// One thing that is told of a frame.
#[derive(Clone, Copy)]
pub(crate) enum Said {
    /// The report of the frame, as if nothing were held.
    Report(FrameReport),
    /// An entry of a message of blocks, as if nothing were held.
    Entry {
        /// The message's blocks.
        blocks: Blocks,
        /// Which entry.
        entry: usize,
        /// Why it is refused, if it is.
        refusal: Option<BlockRefusal>,
    },
    /// What became of an entry that was unproved.
    Unproved {
        /// The message's blocks.
        blocks: Blocks,
        /// Which entry.
        entry: usize,
        /// Whether it is held now.
        hold: Hold,
        /// The file of the piece that gave way, if one did.
        file: usize,
    },
    /// Held blocks were proved, or given up.
    Settling {
        /// Their file.
        file: usize,
        /// What became of them.
        settled: Settled,
    },
    /// Memory was refused to settle a piece.
    Lacking,
}

/// Tells one thing of the frame of this number, and notes what it amounts to.
pub(crate) fn say<L: LineSink>(
    out: &mut L,
    number: u64,
    said: &Said,
    outcome: &mut Outcome,
) -> Result<(), DeviceFault>
    requires { IsOfEntry said.now }
    ensures { SaysAll L.spelled number (said.now ∷ []) (L.seen out.old) (L.seen out.new)
        outcome.old outcome.new result }
{
    outcome.note_said(said);
    write_said(out, number, said)
}

// Writes the lines of one thing that is told of the frame of this number.
fn write_said<L: LineSink>(out: &mut L, number: u64, said: &Said) -> Result<(), DeviceFault>
    requires { IsOfEntry said.now }
    ensures { Wrote (L.seen out.old) (L.seen out.new) result
        (said_lines_as L.spelled number said.now) }
{
    match said {
        Said::Report(report) => write_frame(out, number, report),
        Said::Entry {
            blocks,
            entry,
            refusal,
        } => lines::say(&line_of_entry(number, blocks, *entry, *refusal), out),
        Said::Unproved {
            blocks,
            entry,
            hold,
            file,
        } => write_hold(out, number, blocks, *entry, *hold, *file),
        Said::Settling { file, settled } => {
            lines::say(&line_of_settled(number, *file, *settled), out)
        }
        Said::Lacking => lines::say(&line_of_lacking(number), out),
    }
}

// Writes the lines of what became of an entry that was unproved.
fn write_hold<L: LineSink>(
    out: &mut L,
    number: u64,
    blocks: &Blocks,
    entry: usize,
    hold: Hold,
    file: usize,
) -> Result<(), DeviceFault>
    requires { entry < length blocks.now.refusals }
    ensures { Wrote (L.seen out.old) (L.seen out.new) result
        (hold_lines_as L.spelled number blocks.now entry hold file) }
{
    match hold {
        Hold::Held { dropped } => write_held(out, number, blocks, entry, dropped, file),
        Hold::Known => {
            let why = Some(BlockRefusal::Unproved);
            lines::say(&line_of_entry(number, blocks, entry, why), out)
        }
        Hold::NoMemory => {
            lines::say(
                &line_of_refused(number, blocks, entry, LACKING, NO_MEMORY),
                out,
            )
        }
    }
}

// The number and the name of the refusal of a block or a piece if memory was refused for it.
const LACKING: u32 = 5;

const NO_MEMORY: &str = "NoMemory";

// Writes the lines of a block that is held, and of the piece of this file that gave way to it.
fn write_held<L: LineSink>(
    out: &mut L,
    number: u64,
    blocks: &Blocks,
    entry: usize,
    dropped: Option<Run>,
    file: usize,
) -> Result<(), DeviceFault>
    requires { entry < length blocks.now.refusals }
    ensures { Wrote (L.seen out.old) (L.seen out.new) result
        (hold_lines_as L.spelled number blocks.now entry (Hold.Held dropped) file) }
{
    match dropped {
        None => lines::say(&line_of_held(number, blocks, entry), out),
        Some(run) => match lines::say(&line_of_dropped(number, file, run), out) {
            Ok(()) => lines::say(&line_of_held(number, blocks, entry), out),
            Err(fault) => Err(fault),
        },
    }
}

// The line of a block that is held.
fn line_of_held(number: u64, blocks: &Blocks, entry: usize) -> Line<'static>
    requires { entry < length blocks.now.refusals }
    ensures { row_of result
        ≡ held_row number blocks.now.file (blocks.now.first + entry) }
{
    let (file, block) = blocks.place(entry);
    Line::Held {
        frame: number,
        file: file as u64,
        block,
    }
}

// The line of a piece that gave way.
fn line_of_dropped(number: u64, file: usize, run: Run) -> Line<'static>
    ensures { row_of result ≡ dropped_row number file run.first run.last }
{
    Line::Dropped {
        frame: number,
        file: file as u64,
        first: run.first,
        last: run.last,
    }
}

// The line of a piece that is not settled, since memory was refused.
fn line_of_lacking(number: u64) -> Line<'static>
    ensures { row_of result ≡ lacks_row number }
{
    refused(number, "P", LACKING, NO_MEMORY)
}

// The line of held blocks that were proved, or given up.
fn line_of_settled(number: u64, file: usize, settled: Settled) -> Line<'static>
    ensures { row_of result ≡ settled_row number file settled }
{
    match settled {
        Settled::Proved(run) => Line::Proved {
            frame: number,
            file: file as u64,
            first: run.first,
            last: run.last,
        },
        Settled::False(run) => Line::False {
            frame: number,
            file: file as u64,
            first: run.first,
            last: run.last,
        },
    }
}

impl Outcome {
    // With the lines of one more thing that was told.
    fn note_said(&mut self, said: &Said)
        ensures refused { self.new.refused ≡ (self.old.refused || said_refuses said.now) }
        ensures no_memory { self.new.no_memory ≡ (self.old.no_memory || said_lacks said.now) }
        ensures fault { self.new.fault ≡ self.old.fault }
    {
        match said {
            Said::Report(report) => self.note(report),
            Said::Entry { refusal, .. } => self.refused |= refusal.is_some(),
            Said::Unproved { hold, .. } => self.note_hold(*hold),
            Said::Settling { settled, .. } => self.refused |= matches!(settled, Settled::False(_)),
            Said::Lacking => {
                self.refused = true;
                self.no_memory = true;
            }
        }
    }

    // With the lines of what became of an entry that was unproved.
    fn note_hold(&mut self, hold: Hold)
        ensures refused { self.new.refused ≡ (self.old.refused || hold_refuses hold) }
        ensures no_memory { self.new.no_memory ≡ (self.old.no_memory || hold_lacks hold) }
        ensures fault { self.new.fault ≡ self.old.fault }
    {
        match hold {
            Hold::Held { dropped } => self.refused |= dropped.is_some(),
            Hold::Known => self.refused = true,
            Hold::NoMemory => {
                self.refused = true;
                self.no_memory = true;
            }
        }
    }
}
