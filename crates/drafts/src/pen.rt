//! A pen that goes over one text twice: first to measure it, then to write it.

ghost use Rattle.std.specs.Prelude.{pos};
ghost use Rattle.benc.specs.Spelling.{integer, string};
ghost use Rattle.drafts.specs.Pen.{Put};

use benc::{Sink, write_all};
use itoa::Buffer;

/// What becomes of the parts of a text that are put, one after the other. It takes no memory.
#[derive(Clone, Copy)]
pub(crate) enum Pen {
    /// Their bytes are counted, and none are written.
    Measuring(u64),
    /// They are written.
    Writing,
    /// The sink has failed, and no more is written.
    Broken,
}

impl Pen {
    /// Appends these bytes to the text.
    pub(crate) fn put<W: Sink>(&mut self, w: &mut W, part: &[u8])
        ensures { Put self.old (W.seen w.old) self.new (W.seen w.new) part.now }
    {
        *self = match *self {
            Pen::Measuring(len) => Pen::Measuring(len.saturating_add(part.len() as u64)),
            Pen::Writing => match write_all(w, part) {
                Ok(()) => Pen::Writing,
                Err(_) => Pen::Broken,
            },
            Pen::Broken => Pen::Broken,
        };
    }

    /// Puts the spelling of a byte string.
    pub(crate) fn put_string<W: Sink>(&mut self, w: &mut W, bytes: &[u8])
        ensures { Put self.old (W.seen w.old) self.new (W.seen w.new) (string bytes.now) }
    {
        let mut digits = Buffer::new();
        self.put(w, digits.format(bytes.len()).as_bytes());
        self.put(w, b":");
        self.put(w, bytes);
    }

    /// Puts the spelling of an integer.
    pub(crate) fn put_integer<W: Sink>(&mut self, w: &mut W, n: u64)
        ensures { Put self.old (W.seen w.old) self.new (W.seen w.new) (integer (pos n)) }
    {
        let mut digits = Buffer::new();
        self.put(w, b"i");
        self.put(w, digits.format(n).as_bytes());
        self.put(w, b"e");
    }
}
