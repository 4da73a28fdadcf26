//! Lines that begin with their kind.
ghost use Rattle.std.specs.Prelude.{◌∷◌, [], codes, map};
ghost use Rattle.benc.specs.Device.{Wrote};
ghost use Rattle.lines.specs.Rows.{name as name_item, number as number_item};
ghost use Rattle.lines.specs.Table.{path_item, plain_row};

use crate::line_sink::RowSink;
use crate::part::Part::{Name, Number, Path, Word};
use benc::DeviceFault;

/// Says a line that has its kind alone.
pub(crate) fn say_word<R: RowSink>(kind: &'static str, out: &mut R) -> Result<(), DeviceFault>
    ensures { Wrote (R.seen out.old) (R.seen out.new) result (R.spelled (plain_row kind.now [])) }
{
    out.row(kind, &[Word(kind)])
}

/// Says a line about a file.
pub(crate) fn say_path<R: RowSink>(
    kind: &'static str,
    path: &[&str],
    out: &mut R,
) -> Result<(), DeviceFault>
    ensures { Wrote (R.seen out.old) (R.seen out.new) result
        (R.spelled (plain_row kind.now (path_item (map (λ s. s.now) path.now) ∷ []))) }
{
    out.row(kind, &[Word(kind), Path("path", path)])
}

/// Says a line that has a number under this key.
pub(crate) fn say_number<R: RowSink>(
    kind: &'static str,
    key: &'static str,
    number: u64,
    out: &mut R,
) -> Result<(), DeviceFault>
    ensures { Wrote (R.seen out.old) (R.seen out.new) result
        (R.spelled (plain_row kind.now (number_item key.now number ∷ []))) }
{
    out.row(kind, &[Word(kind), Number(key, number)])
}

/// Says a line that has a name.
pub(crate) fn say_name<R: RowSink>(
    kind: &'static str,
    name: &'static str,
    out: &mut R,
) -> Result<(), DeviceFault>
    ensures { Wrote (R.seen out.old) (R.seen out.new) result
        (R.spelled (plain_row kind.now (name_item (codes "name") name.now ∷ []))) }
{
    out.row(kind, &[Word(kind), Name("name", name)])
}
