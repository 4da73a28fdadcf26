//! Lines at the front of a text, read again.
ghost use Rattle.std.specs.Prelude.{◌≡◌, ◌++◌, MatchOption};
ghost use Rattle.lines.specs.Reading.{BeginsWith};
ghost use Rattle.lines.specs.Table.{row_of};
ghost use Rattle.lines.specs.Texts.{text_of};

use crate::compared::Compared;
use crate::line::{Line, say};

/// What stands behind a line, if a text begins with the line, to the byte. It takes no memory.
pub fn strip_line<'a>(line: &Line<'_>, text: &'a [u8]) -> Option<&'a [u8]>
    ensures { MatchOption result (BeginsWith (text_of (row_of line.now)) text.now → ⊥)
        (λ rest. text.now ≡ text_of (row_of line.now) ++ rest.now) }
{
    let mut compared = Compared::new(text);
    match say(line, &mut compared) {
        Ok(()) => compared.rest(),
        Err(_) => None,
    }
}
