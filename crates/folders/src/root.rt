//! The line of a file: its length and its pieces root.
ghost use Rattle.std.specs.Prelude.{◌≡◌, ℕ, ◌+◌, ◌^◌, ◌<◌, List, length, IfOk, OnErr};
ghost use Rattle.benc.specs.Device.{CountsFault, WroteAndFlushed};
ghost use Rattle.folders.specs.Reading.{IsReadingOf};
ghost use Rattle.folders.specs.Root.{Blames, EndsRootLine, IsFileOfSource, root_line_as, root_line_of};
ghost use Rattle.folders.specs.TakeAll.{IsReadWithin};

use crate::taking::{BUFFER_LENGTH, Consumer, take_all};
use benc::{DeviceFault, Sink, Source, WriteFault};
use filetree::Refusal;
use hashtree::{Hash, MAX_LENGTH, RootBuilder};
use lines::{Line, LineSink, say_last};
use thiserror::Error;

/// Why no line was written whole.
#[derive(Clone, Copy, Debug, PartialEq, Eq, Drop, Error)]
pub enum RootFault {
    /// The source failed, and nothing was written.
    #[error("the source failed")]
    Read,
    /// The sink failed, and a prefix of the line went out.
    #[error("cannot write")]
    Write,
}

// What reading a source found.
#[derive(Drop)]
enum Reading {
    Empty,
    Root(u64, Hash),
    TooLong,
}

/// Reads a file's content from the source, writes the line with its length in bytes and its pieces
/// root (BEP 52), and flushes once. It takes no memory: its buffer of 128 KiB is on the stack.
///
/// The line is `LENGTH ROOT`, the root in hexadecimal, or `0 -` for an empty file, and the answer
/// is true. Above 2^46 bytes it is `refused 10 Length`, the answer is false, and no byte after
/// number 2^46 + 1 was read.
///
/// The first fault of a device ends it: `Read` if the source failed before it had given more than
/// 2^46 bytes, and then nothing was written or flushed, and `Write` if the sink failed, and then a
/// prefix of the line went out. No flush comes before all of it did.
// It has the buffer in its frame, so it is not inlined.
#[inline(never)]
pub fn root_line<R: Source, W: Sink>(source: &mut R, out: &mut W) -> Result<bool, RootFault>
    ensures ends { EndsRootLine root_line_of (R.seen source.old) (R.seen source.new)
        (W.seen out.old) (W.seen out.new) result }
    ensures no_further { IsReadWithin (2 ^ 46 + 1) (R.seen source.old) (R.seen source.new) }

    // A fault is answered only if that device had one, and the other had none.
    ensures faults { Blames (R.seen source.old) (R.seen source.new)
        (W.seen out.old) (W.seen out.new) result }
{
    let mut buffer = [0u8; BUFFER_LENGTH];
    root_line_onto(source, &mut buffer, out)
}

/// Does what `root_line` does, onto anything that takes lines, and through a buffer of the
/// caller's. Condition: it is not empty. With room for eight blocks they are hashed side by side.
pub fn root_line_onto<R: Source, L: LineSink>(
    source: &mut R,
    buffer: &mut [u8],
    out: &mut L,
) -> Result<bool, RootFault>
    requires { 0 < length buffer.old }
    ensures ends { EndsRootLine (root_line_as L.spelled) (R.seen source.old) (R.seen source.new)
        (L.seen out.old) (L.seen out.new) result }
    ensures no_further { IsReadWithin (2 ^ 46 + 1) (R.seen source.old) (R.seen source.new) }
    ensures faults { Blames (R.seen source.old) (R.seen source.new)
        (L.seen out.old) (L.seen out.new) result }
{
    let Ok(reading) = read_content(source, buffer) else {
        return Err(RootFault::Read);
    };
    let within = !matches!(reading, Reading::TooLong);
    match say_reading(&reading, out) {
        Ok(()) => Ok(within),
        Err(_) => Err(RootFault::Write),
    }
}

// Says the line of what was read.
fn say_reading<L: LineSink>(reading: &Reading, out: &mut L) -> Result<(), WriteFault>
    ensures { (file : List ℕ) → IsReadingOf file reading.now → WroteAndFlushed (L.seen out.old)
        (L.seen out.new) result (root_line_as L.spelled file) }
{
    match reading {
        Reading::Empty => say_last(
            &Line::Root {
                length: 0,
                root: None,
            },
            out,
        ),
        Reading::Root(length, root) => say_last(
            &Line::Root {
                length: *length,
                root: Some(root),
            },
            out,
        ),
        Reading::TooLong => say_last(
            &Line::Refusal {
                refusal: &Refusal::Length,
                path: &[],
            },
            out,
        ),
    }
}

// Reads the source to its end, or to one byte past the greatest length.
fn read_content<R: Source>(source: &mut R, buffer: &mut [u8]) -> Result<Reading, DeviceFault>
    requires { 0 < length buffer.old }
    ensures content { IfOk result (λ reading. (file : List ℕ)
        × IsFileOfSource (R.seen source.old) (R.seen source.new) file × IsReadingOf file reading) }
    ensures blamed { OnErr result (IsReadWithin (2 ^ 46) (R.seen source.old) (R.seen source.new)) }
    ensures counts { CountsFault (R.seen source.old).faults (R.seen source.new).faults result }
    ensures no_further { IsReadWithin (2 ^ 46 + 1) (R.seen source.old) (R.seen source.new) }
{
    let mut builder = RootBuilder::new();
    match take_all(source, MAX_LENGTH, buffer, &mut builder)? {
        None => Ok(Reading::TooLong),
        Some(0) => Ok(Reading::Empty),
        Some(_) => {
            let (length, root) = builder.finish();
            Ok(Reading::Root(length, root))
        }
    }
}

impl Consumer for RootBuilder {
    ghost use Rattle.hashtree.specs.RootBuilder.{Feeds};
    ghost use Rattle.folders.specs.Feeding.{CanBuild};
    ghost use Rattle.folders.specs.ConsumerLaws.{built_room, built_less};
    ghost use Rattle.hashtree.proofs.Feeding.{feeds_both, feeds_none};

    ghost has_room = { CanBuild };

    ghost took = { Feeds };

    fn take(&mut self, part: &[u8]) {
        self.push(part);
    }

    ghost none = { feeds_none };

    ghost joins = { feeds_both };

    ghost room_left = { built_room };

    ghost room_for_less = { built_less };
}
