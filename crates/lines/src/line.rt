//! The kinds of line.
ghost use Rattle.std.specs.Prelude.{◌≡◌, ℕ, List};
ghost use Rattle.benc.specs.Device.{SinkSeen, Wrote, WroteAndFlushed};
ghost use Rattle.lines.specs.Table.{row_of};

use crate::checked::{Checked, say_checked};
use crate::frames::{
    Why, say_bad_frame, say_block, say_frame, say_of, say_refused, say_refused_at, say_run,
};
use crate::line_sink::{LineSink, RowSink};
use crate::parted::{Parted, say_parted};
use crate::plain::{say_name, say_number, say_path, say_word};
use crate::refusal::{say_already_form_2, say_refusal};
use crate::shown::{Shown, say_root, say_shown};
use benc::{DeviceFault, WriteFault};
use filetree::Refusal;

/// A line of a report. It borrows what it says. Frames are counted from 1, files of a torrent and
/// blocks of a file from 0.
#[derive(Clone, Copy, Drop)]
pub enum Line<'a> {
    /// This many hashes are newly known by this frame.
    Stored {
        frame: u64,
        count: u64,
    },
    /// This block came in this frame and was verified.
    Verified {
        frame: u64,
        file: u64,
        block: u64,
    },
    /// A message is refused, by a letter and a number and by name.
    Refused {
        frame: u64,
        letter: &'static str,
        number: u64,
        name: &'static str,
    },
    /// This block of a message of several is refused.
    RefusedAt {
        frame: u64,
        letter: &'static str,
        number: u64,
        name: &'static str,
        file: u64,
        block: u64,
    },
    /// This block is held, since it cannot be proved yet.
    Held {
        frame: u64,
        file: u64,
        block: u64,
    },
    /// These blocks that were held are proved.
    Proved {
        frame: u64,
        file: u64,
        first: u64,
        last: u64,
    },
    /// These blocks that were held are false.
    False {
        frame: u64,
        file: u64,
        first: u64,
        last: u64,
    },
    /// These blocks are held no longer, since others needed the room.
    Dropped {
        frame: u64,
        file: u64,
        first: u64,
        last: u64,
    },
    /// This many blocks are still held at the end.
    StillHeld(u64),
    /// The hashes that are asked for are known.
    Answered(u64),
    /// The hashes that are asked for are not known.
    Rejected(u64),
    /// A peer has no such hashes.
    RejectNoted(u64),
    /// A message without a body.
    KeepAlive(u64),
    /// A message with an id of no kind that is read.
    Skipped {
        frame: u64,
        id: u64,
    },
    /// A message of a kind that is read, with a wrong size.
    BadFrame {
        frame: u64,
        id: u64,
        length: u64,
    },
    /// A request that went out, and is noted.
    SentRequest(u64),
    /// Anything else that went out.
    Sent(u64),
    /// The leaves of the file with this path are known.
    Seeded(&'a [&'a str]),
    /// The leaves of the file with this path were not taken.
    NotSeeded(&'a [&'a str]),
    /// The record ended between two frames.
    End,
    /// The record could not be read further, for the reason of this name.
    Fault(&'static str),
    /// The length of a file in bytes, and its pieces root if it is not empty.
    Root {
        length: u64,
        root: Option<&'a [u8; 32]>,
    },
    /// What a torrent holds.
    Shown(Shown<'a>),
    /// What a check found.
    Checked(Checked<'a>),
    /// What the report of a part has alone.
    Parted(Parted<'a>),
    /// Why bytes are no torrent or a draft is none, and the path of the file that it is about, if
    /// there is one.
    Refusal {
        refusal: &'a Refusal,
        path: &'a [String],
    },
    /// A record is of form 2 already.
    AlreadyForm2,
}

/// Says a line: its row of the table goes out. After a fault a prefix of it went out.
#[inline(always)]
pub fn say<L: LineSink>(line: &Line<'_>, out: &mut L) -> Result<(), DeviceFault>
    ensures { Wrote (L.seen out.old) (L.seen out.new) result (L.spelled (row_of line.now)) }
{
    out.say(line)
}

/// Says the last line of a report, and then flushes once. After `WriteFault` a prefix of the line
/// went out.
pub fn say_last<L: LineSink>(line: &Line<'_>, out: &mut L) -> Result<(), WriteFault>
    ensures { WroteAndFlushed (L.seen out.old) (L.seen out.new) result
        (L.spelled (row_of line.now)) }
{
    let said = say(line, out);
    finish_after(out, said)
}

/// Flushes once if all was said, and not after a fault.
pub fn finish_after<L: LineSink>(
    out: &mut L,
    said: Result<(), DeviceFault>,
) -> Result<(), WriteFault>
    ensures { (start : SinkSeen) (text : List ℕ) → Wrote start (L.seen out.old) said text
        → WroteAndFlushed start (L.seen out.new) result text }
{
    said?;
    out.finish()?;
    Ok(())
}

/// Says the row of a line. After a fault a prefix of it went out.
#[inline(always)]
pub(crate) fn say_row<R: RowSink>(line: &Line<'_>, out: &mut R) -> Result<(), DeviceFault>
    ensures { Wrote (R.seen out.old) (R.seen out.new) result (R.spelled (row_of line.now)) }
{
    match *line {
        Line::Stored { frame, count } => say_of("stored", frame, "count", count, out),
        Line::Verified { frame, file, block } => say_block("verified", frame, file, block, out),
        Line::Refused {
            frame,
            letter,
            number,
            name,
        } => {
            let why = Why {
                letter,
                number,
                name,
            };
            say_refused(frame, why, out)
        }
        Line::RefusedAt {
            frame,
            letter,
            number,
            name,
            file,
            block,
        } => {
            let why = Why {
                letter,
                number,
                name,
            };
            say_refused_at(frame, why, file, block, out)
        }
        Line::Held { frame, file, block } => say_block("held", frame, file, block, out),
        Line::Proved {
            frame,
            file,
            first,
            last,
        } => say_run("proved", frame, file, first, last, out),
        Line::False {
            frame,
            file,
            first,
            last,
        } => say_run("false", frame, file, first, last, out),
        Line::Dropped {
            frame,
            file,
            first,
            last,
        } => say_run("dropped", frame, file, first, last, out),
        Line::StillHeld(count) => say_number("held", "count", count, out),
        Line::Answered(frame) => say_frame("answered", frame, out),
        Line::Rejected(frame) => say_frame("rejected", frame, out),
        Line::RejectNoted(frame) => say_frame("reject noted", frame, out),
        Line::KeepAlive(frame) => say_frame("keep-alive", frame, out),
        Line::Skipped { frame, id } => say_of("skipped", frame, "id", id, out),
        Line::BadFrame { frame, id, length } => say_bad_frame(frame, id, length, out),
        Line::SentRequest(frame) => say_frame("sent request", frame, out),
        Line::Sent(frame) => say_frame("sent", frame, out),
        Line::Seeded(path) => say_path("seeded", path, out),
        Line::NotSeeded(path) => say_path("not seeded", path, out),
        Line::End => say_word("end", out),
        Line::Fault(name) => say_name("fault", name, out),
        Line::Root { length, root } => say_root(length, &root, out),
        Line::Shown(shown) => say_shown(&shown, out),
        Line::Checked(found) => say_checked(&found, out),
        Line::Parted(said) => say_parted(&said, out),
        Line::Refusal { refusal, path } => say_refusal(refusal, path, out),
        Line::AlreadyForm2 => say_already_form_2(out),
    }
}
