//! What a replay reports of a frame and answers to it, what all its lines amount to, and how the
//! record ended.
ghost use Rattle.std.specs.Prelude.{◌≡◌, ◌||◌, Bool};
ghost use Rattle.replays.specs.Answering.{reply_of, reply_to};
ghost use Rattle.replays.specs.Outcome.{is_refusal, is_no_memory, status_of};
ghost use Rattle.wire.specs.declared.frame.Frame.TheVariants as frames;
ghost use Rattle.replays.specs.declared.report.FrameReport.TheVariants as FrameReport;

use session::{HashRefusal, Verdict};
use wire::{Ask, Direction, Frame, FrameFault, Message};

/// What a replay makes of a frame.
#[derive(Clone, Copy)]
pub(crate) struct Response {
    /// What is reported of it.
    pub(crate) report: FrameReport,
    /// What is to be answered to it, if answers are wanted.
    pub(crate) reply: Reply,
}

/// What a replay reports of one frame of a record.
#[derive(Clone, Copy)]
pub(crate) enum FrameReport {
    /// The session's verdict on the frame's message.
    Verdict(Verdict),
    /// The frame has the id of a message of a known kind, and a wrong size: it holds no message.
    BadFrame {
        /// The id, the body's first byte.
        id: u8,
        /// The length of the body in bytes, its id counted.
        len: u32,
    },
}

/// A frame as it was handled: its number, counted from 1, and what is reported of it.
#[derive(Clone, Copy)]
pub(crate) struct Reported<'f> {
    pub(crate) number: u64,
    pub(crate) frame: (Direction, Frame<'f>),
    pub(crate) report: &'f FrameReport,
}

/// What is to be answered to a frame, if answers are wanted.
#[derive(Clone, Copy)]
pub(crate) enum Reply {
    /// The hashes that are asked for, which are known.
    Hashes(Ask),
    /// A reject: the hashes are not known, or there are none such.
    Reject(Ask),
    /// Nothing: the frame is no request.
    Nothing,
}

impl Reply {
    /// What is to be answered to a message with this verdict: nothing, if it went out.
    pub(crate) fn of(direction: Direction, message: &Message<'_>, verdict: &Verdict) -> Reply
        ensures { result ≡ reply_to (direction, frames.Message message.now)
            (FrameReport.Verdict verdict.now) }
    {
        match direction {
            Direction::In => Reply::to_incoming(message, verdict),
            Direction::Out => Reply::Nothing,
        }
    }

    fn to_incoming(message: &Message<'_>, verdict: &Verdict) -> Reply
        ensures { result ≡ reply_of message.now verdict.now }
    {
        match (message, verdict) {
            (Message::Request(ask), Verdict::Answered) => Reply::Hashes(*ask),
            (Message::Request(ask), Verdict::Rejected) => Reply::Reject(*ask),
            _ => Reply::Nothing,
        }
    }
}

/// What the lines of a replay's report amount to.
#[derive(Clone, Copy, Debug, Default, PartialEq, Eq)]
pub struct Outcome {
    /// A line reports a refusal, also one out of memory, or a bad frame.
    pub refused: bool,
    /// A line reports that hashes were refused out of memory.
    pub no_memory: bool,
    /// The last line is a fault.
    pub fault: bool,
}

impl Outcome {
    /// With the line of one more frame.
    pub(crate) fn note(&mut self, frame: &FrameReport)
        ensures refused { self.new.refused ≡ (self.old.refused || is_refusal frame.now) }
        ensures no_memory { self.new.no_memory ≡ (self.old.no_memory || is_no_memory frame.now) }
        ensures fault { self.new.fault ≡ self.old.fault }
    {
        match frame {
            FrameReport::Verdict(Verdict::HashRefused(HashRefusal::NoMemory)) => {
                self.refused = true;
                self.no_memory = true;
            }
            FrameReport::Verdict(Verdict::HashRefused(_) | Verdict::BlockRefused(_))
            | FrameReport::BadFrame { .. } => self.refused = true,
            FrameReport::Verdict(Verdict::Blocks(blocks)) => self.refused |= blocks.has_refusal(),
            FrameReport::Verdict(_) => {}
        }
    }

    /// The exit status: 2 if a fault or out of memory is reported, else 1 if a refusal or
    /// a bad frame is, else 0.
    pub fn status(&self) -> u8
        ensures { result ≡ status_of self.now }
    {
        if self.fault || self.no_memory {
            2
        } else if self.refused {
            1
        } else {
            0
        }
    }
}

/// Why a replay goes on to no further frame.
#[derive(Clone, Copy)]
pub(crate) enum Stop {
    /// The record has ended so.
    Ended(Ending),
    /// The lines of a frame broke off.
    Write,
}

/// How the reading of a record ended.
#[derive(Clone, Copy)]
pub(crate) enum Ending {
    /// The record ended between two frames.
    End,
    /// No further frame could be read.
    Fault(FrameFault),
}

impl Ending {
    ghost use Rattle.std.specs.Prelude.{◌≡◌};
    ghost use Rattle.replays.specs.Outcome.{is_fault};

    /// Whether the last line is a fault.
    pub(crate) fn is_fault(&self) -> bool
        ensures { result ≡ is_fault self.now }
    {
        matches!(self, Ending::Fault(_))
    }
}
