//! The line of a torrent that is refused.
ghost use Rattle.std.specs.Prelude.{◌≡◌, ◌+◌, ◌++◌, ◌≤◌, length, map, string_bytes};
ghost use Rattle.benc.specs.Device.{Wrote};
ghost use Rattle.lines.specs.Rows.{item_of};
ghost use Rattle.lines.specs.Table.{already_form_2_row, detail_items, path_items, refusal_row};

use crate::line_sink::RowSink;
use crate::part::{Part, ROOM};
use arrayvec::ArrayVec;
use benc::DeviceFault;
use filetree::Refusal;

/// The parts of a line.
type Parts<'a> = ArrayVec<Part<'a>, ROOM>;

/// Says the line of a refusal, with the path of the file that it is about, if there is one.
pub(crate) fn say_refusal<R: RowSink>(
    refusal: &Refusal,
    path: &[String],
    out: &mut R,
) -> Result<(), DeviceFault>
    ensures { Wrote (R.seen out.old) (R.seen out.new) result
        (R.spelled (refusal_row refusal.now (map string_bytes path.now))) }
{
    let mut parts = Parts::new();
    parts.push(Part::Word("refused"));
    parts.push(Part::Number("number", u64::from(refusal.number())));
    parts.push(Part::Name("name", refusal.name()));
    put_detail(refusal, &mut parts);
    put_path(path, &mut parts);
    out.row("refused", &parts)
}

/// Says the line of a record that is of form 2 already.
pub(crate) fn say_already_form_2<R: RowSink>(out: &mut R) -> Result<(), DeviceFault>
    ensures { Wrote (R.seen out.old) (R.seen out.new) result (R.spelled already_form_2_row) }
{
    out.row(
        "refused",
        &[
            Part::Word("refused"),
            Part::Number("number", 3),
            Part::Name("name", "AlreadyForm2"),
        ],
    )
}

// Puts what is said beside the name at the end.
fn put_detail<'a>(refusal: &Refusal, parts: &mut Parts<'a>)
    requires { length parts.old.items ≤ 5 }
    ensures items { map item_of parts.new.items
        ≡ map item_of parts.old.items ++ detail_items refusal.now }
    ensures bound { length parts.new.items ≤ length parts.old.items + 2 }
{
    match refusal {
        Refusal::NotBencode(fault) => {
            parts.push(Part::Name("fault", fault.kind.name()));
            parts.push(Part::Number("offset", fault.offset as u64));
        }
        Refusal::Missing(key) | Refusal::WrongType(key) => {
            parts.push(Part::Name("key", key.text()));
        }
        _ => (),
    }
}

// Puts the path at the end, if there is one.
fn put_path<'a>(path: &'a [String], parts: &mut Parts<'a>)
    requires { length parts.old.items ≤ 6 }
    ensures items { map item_of parts.new.items
        ≡ map item_of parts.old.items ++ path_items (map string_bytes path.now) }
    ensures bound { length parts.new.items ≤ length parts.old.items + 1 }
{
    if !path.is_empty() {
        parts.push(Part::OwnPath("path", path));
    }
}
