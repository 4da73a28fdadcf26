//! The lines that the report of a part of a check has alone.
ghost use Rattle.std.specs.Prelude.{◌≡◌, [], map};
ghost use Rattle.benc.specs.Device.{Wrote};
ghost use Rattle.lines.specs.Rows.{item_of};
ghost use Rattle.lines.specs.Table.{bad_part_row, part_items, part_row, parted_row};

use crate::line_sink::RowSink;
use crate::part::Part::{Number, Over, Sha256, Word};
use crate::plain::say_word;
use benc::DeviceFault;

/// A line that the report of a part has alone. Parts are counted from 1.
#[derive(Clone, Copy, Drop)]
pub enum Parted<'a> {
    /// The report is of this one of this many parts of a check of the torrent with this version 2
    /// info-hash.
    Part {
        part: u64,
        parts: u64,
        hash: &'a [u8; 32],
    },
    /// The same of a report that tells of bad pieces.
    BadPart {
        part: u64,
        parts: u64,
        hash: &'a [u8; 32],
    },
    /// All of the part is good.
    Yes,
    /// Not all of it is.
    No,
}

/// Says a line of a part's report.
pub(crate) fn say_parted<R: RowSink>(said: &Parted<'_>, out: &mut R) -> Result<(), DeviceFault>
    ensures { Wrote (R.seen out.old) (R.seen out.new) result (R.spelled (parted_row said.now)) }
{
    match *said {
        Parted::Part { part, parts, hash } => say_part(part, parts, hash, out),
        Parted::BadPart { part, parts, hash } => say_bad_part(part, parts, hash, out),
        Parted::Yes => say_word("part yes", out),
        Parted::No => say_word("part no", out),
    }
}

fn say_part<R: RowSink>(
    part: u64,
    parts: u64,
    hash: &[u8; 32],
    out: &mut R,
) -> Result<(), DeviceFault>
    ensures { Wrote (R.seen out.old) (R.seen out.new) result
        (R.spelled (part_row part parts hash.now)) }
{
    out.row(
        "part",
        &[
            Word("part"),
            Over("part", part),
            Number("parts", parts),
            Sha256("hash", hash),
        ],
    )
}

fn say_bad_part<R: RowSink>(
    part: u64,
    parts: u64,
    hash: &[u8; 32],
    out: &mut R,
) -> Result<(), DeviceFault>
    ensures { Wrote (R.seen out.old) (R.seen out.new) result
        (R.spelled (bad_part_row part parts hash.now)) }
{
    out.row(
        "part bad",
        &[
            Word("part"),
            Over("part", part),
            Number("parts", parts),
            Sha256("hash", hash),
            Word("bad"),
        ],
    )
}
