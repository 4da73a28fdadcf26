//! The lines of a torrent, and the line of a file.
ghost use Rattle.std.specs.Prelude.{◌≡◌, ◌∷◌, [], codes, map, option_map};
ghost use Rattle.hex.specs.Hex.{encode_lower};
ghost use Rattle.benc.specs.Device.{Wrote};
ghost use Rattle.lines.specs.Rows.{item_of, number as number_item};
ghost use Rattle.lines.specs.Table.{file_row, hash_row, name_row, pieces_row, root_item, root_row, shown_row, titled_row, total_row};

use crate::line_sink::RowSink;
use crate::part::Part::{self, Number, Path, Sha1, Sha256, Text, Word};
use benc::DeviceFault;

/// A line of what a torrent holds. Sizes are given also as the text of an amount with a unit.
#[derive(Clone, Copy, Drop)]
pub enum Shown<'a> {
    /// The display name.
    Name(&'a str),
    /// The piece length in bytes.
    PieceLength(u64),
    /// The version 2 info-hash.
    InfoHashV2(&'a [u8; 32]),
    /// The version 1 info-hash.
    InfoHashV1(&'a [u8; 20]),
    /// How many files there are.
    Files(u64),
    /// A file: its length in bytes, its pieces root if it is not empty, and its path.
    File {
        length: u64,
        root: Option<&'a [u8; 32]>,
        path: &'a [&'a str],
    },
    /// How many bytes all files have.
    Total {
        bytes: u64,
        size: &'a str,
    },
    /// How many pieces there are, and how large one is.
    Pieces {
        count: u64,
        size: &'a str,
    },
    /// How many piece layers there are.
    Layers(u64),
}

/// Says a line of what a torrent holds.
pub(crate) fn say_shown<R: RowSink>(shown: &Shown<'_>, out: &mut R) -> Result<(), DeviceFault>
    ensures { Wrote (R.seen out.old) (R.seen out.new) result (R.spelled (shown_row shown.now)) }
{
    match *shown {
        Shown::Name(name) => out.row("name", &[Word("name:"), Text("name", name)]),
        Shown::PieceLength(bytes) => {
            say_titled("piece length", "piece length:", "bytes", bytes, out)
        }
        Shown::InfoHashV2(hash) => out.row(
            "info hash v2",
            &[Word("info hash v2:"), Sha256("hash", hash)],
        ),
        Shown::InfoHashV1(hash) => {
            out.row("info hash v1", &[Word("info hash v1:"), Sha1("hash", hash)])
        }
        Shown::Files(count) => say_titled("files", "files:", "count", count, out),
        Shown::File { length, root, path } => say_file(length, &root, path, out),
        Shown::Total { bytes, size } => say_total(bytes, size, out),
        Shown::Pieces { count, size } => say_pieces(count, size, out),
        Shown::Layers(count) => say_titled("layers", "layers:", "count", count, out),
    }
}

/// Says the line of a file's length and root.
pub(crate) fn say_root<R: RowSink>(
    length: u64,
    root: &Option<&[u8; 32]>,
    out: &mut R,
) -> Result<(), DeviceFault>
    ensures { Wrote (R.seen out.old) (R.seen out.new) result
        (R.spelled (root_row length (option_map (λ r. r.now) root.now))) }
{
    out.row("root", &[Number("length", length), root_part(root)])
}

fn say_file<'a, R: RowSink>(
    length: u64,
    root: &Option<&'a [u8; 32]>,
    path: &'a [&'a str],
    out: &mut R,
) -> Result<(), DeviceFault>
    ensures { Wrote (R.seen out.old) (R.seen out.new) result (R.spelled
        (file_row length (option_map (λ r. r.now) root.now) (map (λ s. s.now) path.now))) }
{
    out.row(
        "file",
        &[
            Number("length", length),
            root_part(root),
            Path("path", path),
        ],
    )
}

// The root of a file, or a dash.
fn root_part<'a>(root: &Option<&'a [u8; 32]>) -> Part<'a>
    ensures { item_of result ≡ root_item (option_map (λ r. r.now) root.now) }
{
    match root {
        Some(root) => Sha256("root", *root),
        None => Word("-"),
    }
}

// Says a line with a number behind its title.
fn say_titled<R: RowSink>(
    kind: &'static str,
    title: &'static str,
    key: &'static str,
    number: u64,
    out: &mut R,
) -> Result<(), DeviceFault>
    ensures { Wrote (R.seen out.old) (R.seen out.new) result
        (R.spelled (titled_row kind.now title.now (number_item key.now number ∷ []))) }
{
    out.row(kind, &[Word(title), Number(key, number)])
}

fn say_total<R: RowSink>(bytes: u64, size: &str, out: &mut R) -> Result<(), DeviceFault>
    ensures { Wrote (R.seen out.old) (R.seen out.new) result
        (R.spelled (total_row bytes size.now)) }
{
    out.row(
        "total",
        &[Word("total:"), Number("bytes", bytes), Text("size", size)],
    )
}

fn say_pieces<R: RowSink>(count: u64, size: &str, out: &mut R) -> Result<(), DeviceFault>
    ensures { Wrote (R.seen out.old) (R.seen out.new) result
        (R.spelled (pieces_row count size.now)) }
{
    out.row(
        "pieces",
        &[
            Word("pieces:"),
            Number("count", count),
            Word("of"),
            Text("size", size),
        ],
    )
}
