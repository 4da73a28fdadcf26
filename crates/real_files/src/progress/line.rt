//! What the line says, in the columns that there are.
ghost use Rattle.std.specs.Prelude.{◌≤◌, chars, false};
ghost use Rattle.unicode_width.specs.Width.{str_width};

use crate::progress::amount::{Amount, Elapsed};
use arrayvec::ArrayString;
use std::fmt::Write;
use std::time::Duration;
use unicode_width::{UnicodeWidthChar, UnicodeWidthStr};

/// A text in place. What does not fit is left out.
pub(crate) type Text = ArrayString<2048>;

// A name is looked at from this many bytes before its end.
const LOOKED_AT: usize = 512;

/// How far a command has come.
#[derive(Drop)]
pub(crate) struct Figures {
    /// The place in all bytes.
    pub(crate) done: u64,
    /// The number of all bytes, if it is known.
    pub(crate) all: Option<u64>,
    /// How many bytes were read.
    pub(crate) read: u64,
    /// The time that reading them took.
    pub(crate) time: Duration,
}

impl Figures {
    // Bytes a second.
    fn rate(&self) -> u64 {
        let milliseconds = (self.time.as_secs().saturating_mul(1000)).saturating_add(
            self.time.subsec_millis() as u64,
        );
        self.read.saturating_mul(1000) / milliseconds.max(1)
    }

    // All figures.
    fn text(&self) -> Text {
        let mut text = self.first_text();
        let rate = self.rate();
        let _ = match self.all {
            None => write!(text, ", {}/s", Amount(rate)),
            Some(_) => write!(text, ", {}/s, {} left", Amount(rate), self.left()),
        };
        text
    }

    // The same without the rate, if the time that is left says it too.
    fn short_text(&self) -> Text {
        let mut text = self.first_text();
        if self.all.is_some() {
            let _ = write!(text, ", {} left", self.left());
        }
        text
    }

    // What is done, of all if that is known.
    fn first_text(&self) -> Text {
        let mut text = self.done_text();
        if let Some(all) = self.all {
            let _ = write!(text, " of {}", Amount(all));
        }
        text
    }

    // What is done.
    fn done_text(&self) -> Text {
        let mut text = Text::new();
        let _ = write!(text, "{}", Amount(self.done));
        text
    }

    // The time that is left at this rate.
    fn left(&self) -> Elapsed {
        let all = self.all.unwrap_or(self.done);
        Elapsed(all.saturating_sub(self.done) / self.rate().max(1))
    }
}

/// The line with these figures and the name of the file at hand, which loses its start if it is too
/// long. In few columns it lacks first the name, then the rate, and then all but what is done.
pub(crate) fn line_of(figures: &Figures, name: &str, columns: usize) -> Text
    ensures { str_width false (chars result.bytes) ≤ columns }
{
    let text = figures.text();
    let short = figures.short_text();
    let forms = [
        with_name(&text, name, columns),
        text,
        with_name(&short, name, columns),
        short,
        figures.first_text(),
        figures.done_text(),
    ];
    'forms: for form in forms {
        if form.as_str().width() <= columns {
            return form;
        }
    }
    Text::new()
}

// Figures, and what follows of a name in this many columns.
fn with_name(figures: &Text, name: &str, columns: usize) -> Text {
    let mut text = *figures;
    let _ = text.try_push_str(": ");
    let room = columns.saturating_sub(text.as_str().width());
    let end = end_of(name, room);
    if end.len() == name.len() {
        put_printable(&mut text, end);
    } else {
        let _ = text.try_push_str("..");
        put_printable(&mut text, end_of(name, room.saturating_sub(2)));
    }
    text
}

// The longest end of a text that takes at most this many columns.
fn end_of(text: &str, columns: usize) -> &str {
    let mut rest = text.chars();
    'starts: for _ in 0..text.len() {
        let end = rest.as_str();
        if end.len() <= LOOKED_AT && end.width() <= columns {
            return end;
        }
        let _ = rest.next();
    }
    ""
}

// Puts a text at the end, with `?` for each control character.
fn put_printable(line: &mut Text, text: &str) {
    'letters: for letter in text.chars() {
        let printed = if letter.width().is_some() {
            letter
        } else {
            '?'
        };
        let _ = line.try_push(printed);
    }
}
