//! The lines of a check.
ghost use Rattle.std.specs.Prelude.{map, string_bytes};
ghost use Rattle.benc.specs.Device.{Wrote};
ghost use Rattle.lines.specs.Table.{bad_pieces_row, bad_row, checked_row, extra_row};

use crate::line_sink::RowSink;
use crate::part::Part::{Number, OwnPath, Path, Start, Unprinted, Word};
use crate::plain::{say_number, say_path, say_word};
use benc::DeviceFault;

/// A line of a check. Pieces are counted from 0.
#[derive(Clone, Copy, Drop)]
pub enum Checked<'a> {
    /// The torrent does not name the file with this path.
    Extra(&'a [String]),
    /// The file with this path is good.
    Good(&'a [&'a str]),
    /// It is not there.
    Missing(&'a [&'a str]),
    /// It cannot be read.
    Unreadable(&'a [&'a str]),
    /// It has another length.
    WrongLength(&'a [&'a str]),
    /// This piece of it is the first that is bad.
    Bad {
        piece: u64,
        path: &'a [&'a str],
    },
    /// These pieces of it are bad, which are its bytes from the one offset to the other, both
    /// included. Its path stands in the object alone: the line before has it.
    BadPieces {
        first: u64,
        last: u64,
        from: u64,
        to: u64,
        path: &'a [&'a str],
    },
    /// All version 1 pieces are good.
    V1Good,
    /// This version 1 piece is the first that is bad.
    V1Bad(u64),
    /// The version 1 pieces were not checked.
    V1NotChecked,
    /// All is good.
    Yes,
    /// Not all is good.
    No,
}

/// Says a line of a check.
pub(crate) fn say_checked<R: RowSink>(found: &Checked<'_>, out: &mut R) -> Result<(), DeviceFault>
    ensures { Wrote (R.seen out.old) (R.seen out.new) result (R.spelled (checked_row found.now)) }
{
    match *found {
        Checked::Extra(path) => say_extra(path, out),
        Checked::Good(path) => say_path("good", path, out),
        Checked::Missing(path) => say_path("missing", path, out),
        Checked::Unreadable(path) => say_path("unreadable", path, out),
        Checked::WrongLength(path) => say_path("wrong length", path, out),
        Checked::Bad { piece, path } => say_bad(piece, path, out),
        Checked::BadPieces {
            first,
            last,
            from,
            to,
            path,
        } => say_bad_pieces(first, last, from, to, path, out),
        Checked::V1Good => say_word("v1 good", out),
        Checked::V1Bad(piece) => say_number("v1 bad", "piece", piece, out),
        Checked::V1NotChecked => say_word("v1 not checked", out),
        Checked::Yes => say_word("yes", out),
        Checked::No => say_word("no", out),
    }
}

fn say_extra<R: RowSink>(path: &[String], out: &mut R) -> Result<(), DeviceFault>
    ensures { Wrote (R.seen out.old) (R.seen out.new) result
        (R.spelled (extra_row (map string_bytes path.now))) }
{
    out.row("extra", &[Word("extra"), OwnPath("path", path)])
}

fn say_bad<R: RowSink>(piece: u64, path: &[&str], out: &mut R) -> Result<(), DeviceFault>
    ensures { Wrote (R.seen out.old) (R.seen out.new) result
        (R.spelled (bad_row piece (map (λ s. s.now) path.now))) }
{
    out.row(
        "bad",
        &[Word("bad"), Number("piece", piece), Path("path", path)],
    )
}

fn say_bad_pieces<R: RowSink>(
    first: u64,
    last: u64,
    from: u64,
    to: u64,
    path: &[&str],
    out: &mut R,
) -> Result<(), DeviceFault>
    ensures { Wrote (R.seen out.old) (R.seen out.new) result
        (R.spelled (bad_pieces_row first last from to (map (λ s. s.now) path.now))) }
{
    out.row(
        "bad pieces",
        &[
            Unprinted("path", path),
            Word("bad pieces"),
            Number("first", first),
            Number("last", last),
            Word("bytes"),
            Start("from", from),
            Number("to", to),
        ],
    )
}
