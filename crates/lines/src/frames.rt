//! Lines of a frame: its number, the kind, and what it says.
ghost use Rattle.std.specs.Prelude.{◌∷◌, [], codes};
ghost use Rattle.benc.specs.Device.{Wrote};
ghost use Rattle.lines.specs.Rows.{number as number_item};
ghost use Rattle.lines.specs.Table.{bad_frame_row, block_items, frame_row, refused_row, run_items};

use crate::line_sink::RowSink;
use crate::part::Part::{Code, Name, Number, Word};
use benc::DeviceFault;

/// Says a line that has the frame and the kind alone.
#[inline(always)]
pub(crate) fn say_frame<R: RowSink>(
    kind: &'static str,
    frame: u64,
    out: &mut R,
) -> Result<(), DeviceFault>
    ensures { Wrote (R.seen out.old) (R.seen out.new) result
        (R.spelled (frame_row kind.now frame [])) }
{
    out.row(kind, &[Number("frame", frame), Word(kind)])
}

/// Says a line of a frame that has a number under this key.
pub(crate) fn say_of<R: RowSink>(
    kind: &'static str,
    frame: u64,
    key: &'static str,
    number: u64,
    out: &mut R,
) -> Result<(), DeviceFault>
    ensures { Wrote (R.seen out.old) (R.seen out.new) result
        (R.spelled (frame_row kind.now frame (number_item key.now number ∷ []))) }
{
    out.row(
        kind,
        &[Number("frame", frame), Word(kind), Number(key, number)],
    )
}

/// Says a line of a frame about a block.
pub(crate) fn say_block<R: RowSink>(
    kind: &'static str,
    frame: u64,
    file: u64,
    block: u64,
    out: &mut R,
) -> Result<(), DeviceFault>
    ensures { Wrote (R.seen out.old) (R.seen out.new) result
        (R.spelled (frame_row kind.now frame (block_items file block))) }
{
    out.row(
        kind,
        &[
            Number("frame", frame),
            Word(kind),
            Number("file", file),
            Number("block", block),
        ],
    )
}

/// Says a line of a frame about a run of blocks.
pub(crate) fn say_run<R: RowSink>(
    kind: &'static str,
    frame: u64,
    file: u64,
    first: u64,
    last: u64,
    out: &mut R,
) -> Result<(), DeviceFault>
    ensures { Wrote (R.seen out.old) (R.seen out.new) result
        (R.spelled (frame_row kind.now frame (run_items file first last))) }
{
    out.row(
        kind,
        &[
            Number("frame", frame),
            Word(kind),
            Number("file", file),
            Number("first", first),
            Number("last", last),
        ],
    )
}

/// Why a message or a block is refused: a letter and a number, and a name.
#[derive(Clone, Copy)]
pub(crate) struct Why {
    pub(crate) letter: &'static str,
    pub(crate) number: u64,
    pub(crate) name: &'static str,
}

/// Says a line that refuses a message.
pub(crate) fn say_refused<R: RowSink>(frame: u64, why: Why, out: &mut R) -> Result<(), DeviceFault>
    ensures { Wrote (R.seen out.old) (R.seen out.new) result
        (R.spelled (refused_row frame why.letter.now why.number why.name.now [])) }
{
    out.row(
        "refused",
        &[
            Number("frame", frame),
            Word("refused"),
            Code("code", why.letter, why.number),
            Name("name", why.name),
        ],
    )
}

/// Says a line that refuses a block.
pub(crate) fn say_refused_at<R: RowSink>(
    frame: u64,
    why: Why,
    file: u64,
    block: u64,
    out: &mut R,
) -> Result<(), DeviceFault>
    ensures { Wrote (R.seen out.old) (R.seen out.new) result
        (R.spelled (refused_row frame why.letter.now why.number why.name.now
        (block_items file block))) }
{
    out.row(
        "refused",
        &[
            Number("frame", frame),
            Word("refused"),
            Code("code", why.letter, why.number),
            Name("name", why.name),
            Number("file", file),
            Number("block", block),
        ],
    )
}

/// Says a line about a frame of a wrong size.
pub(crate) fn say_bad_frame<R: RowSink>(
    frame: u64,
    id: u64,
    length: u64,
    out: &mut R,
) -> Result<(), DeviceFault>
    ensures { Wrote (R.seen out.old) (R.seen out.new) result
        (R.spelled (bad_frame_row frame id length)) }
{
    out.row(
        "bad frame",
        &[
            Number("frame", frame),
            Word("bad frame"),
            Number("id", id),
            Number("length", length),
        ],
    )
}
