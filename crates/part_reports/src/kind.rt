//! The kinds of reports of parts.
ghost use Rattle.std.specs.Prelude.{map};
ghost use Rattle.part_reports.specs.Heads.{AreOfKind};

use crate::head::read_head;

/// What the reports of parts tell of each file.
#[derive(Clone, Copy, Debug, PartialEq, Eq)]
pub enum Kind {
    /// Its verdict.
    Plain,
    /// Its verdict, and its runs of bad pieces.
    Marked,
}

/// The kind of these reports, which the first line of the first one says: `Marked` exactly if it is
/// that of a marked report, to the byte.
pub fn kind_of(texts: &[&[u8]]) -> Kind
    ensures { AreOfKind (map (λ x. x.now) texts.now) result }
{
    if texts.is_empty() {
        return Kind::Plain;
    }
    match read_head(Kind::Marked, texts[0]) {
        Some(_) => Kind::Marked,
        None => Kind::Plain,
    }
}
