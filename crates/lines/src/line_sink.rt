//! What lines go to.
ghost use Rattle.std.specs.Prelude.{◌≡◌, ◌≤◌, OnOk, length, map, true};
ghost use Rattle.std.specs.Io.KnownBytes.{Keeps};
ghost use Rattle.benc.specs.Device.{CountsFault, Wrote, one_more};

use crate::line::{Line, say_row};
use crate::object::write_object;
use crate::part::Part;
use crate::text::write_text;
use benc::{DeviceFault, Sink};

/// What the lines of a report go to. Every sink takes them as their texts, and `Objects` takes them
/// as JSON objects.
pub trait LineSink {
    ghost use Rattle.std.specs.Prelude.{ℕ, List};
    ghost use Rattle.benc.specs.Device.{SinkSeen};
    ghost use Rattle.lines.specs.Rows.{Row};
    ghost use Rattle.lines.specs.Table.{row_of};

    /// What callers see of its sink.
    ghost seen: { Self → SinkSeen };

    /// How it spells a line.
    ghost spelled: { Row → List ℕ };

    /// Says a line: its row of the table goes out. It takes no memory, and does not flush. After a
    /// fault a prefix of it went out.
    fn say(&mut self, line: &Line<'_>) -> Result<(), DeviceFault>
        ensures { Wrote (seen self.old) (seen self.new) result (spelled (row_of line.now)) };

    /// Flushes its sink, which is counted whether it fails or not. It writes nothing.
    fn finish(&mut self) -> Result<(), DeviceFault>
        ensures bytes { Keeps (seen self.old).written (seen self.new).written }
        ensures flushed { OnOk result ((seen self.new).is_flushed ≡ true) }
        ensures counts { CountsFault (seen self.old).faults (seen self.new).faults result }
        ensures flushes { (seen self.new).flushes ≡ one_more (seen self.old).flushes };

    /// How many calls its sink answered with a fault, modulo 2^64.
    fn faults(&self) -> u64
        ensures { result ≡ (seen self.now).faults };
}

impl<W: Sink> LineSink for W {
    ghost use Rattle.lines.specs.Texts.{text_of};

    ghost seen = { W.seen };

    ghost spelled = { text_of };

    #[inline(always)]
    fn say(&mut self, line: &Line<'_>) -> Result<(), DeviceFault> {
        say_row(line, self)
    }

    fn finish(&mut self) -> Result<(), DeviceFault> {
        self.flush()
    }

    fn faults(&self) -> u64 {
        self.failures()
    }
}

/// A sink that lines go to as JSON objects.
#[derive(Drop)]
pub struct Objects<W: Sink> {
    pub(crate) sink: W,
}

impl<W: Sink> Objects<W> {
    /// Lines go to this sink as objects.
    pub fn new(sink: W) -> Objects<W>
        ensures { result.sink ≡ sink }
    {
        Objects { sink }
    }
}

impl<W: Sink> LineSink for Objects<W> {
    ghost use Rattle.lines.specs.Objects.{object_of};

    ghost seen = { λ s. W.seen s.sink };

    ghost spelled = { object_of };

    #[inline(always)]
    fn say(&mut self, line: &Line<'_>) -> Result<(), DeviceFault> {
        say_row(line, self)
    }

    fn finish(&mut self) -> Result<(), DeviceFault> {
        self.sink.flush()
    }

    fn faults(&self) -> u64 {
        self.sink.failures()
    }
}

/// What takes a row: a sink as the row's text, and `Objects` as its JSON object.
pub(crate) trait RowSink {
    ghost use Rattle.std.specs.Prelude.{ℕ, List};
    ghost use Rattle.benc.specs.Device.{SinkSeen};
    ghost use Rattle.lines.specs.Rows.{Row, item_of, row};

    // What callers see of its sink.
    ghost seen: { Self → SinkSeen };

    // How it spells a row.
    ghost spelled: { Row → List ℕ };

    /// Writes the row of this kind with these parts. It takes no memory, and does not flush. After
    /// a fault a prefix of it went out. Condition: it has seven parts at most.
    fn row(&mut self, kind: &'static str, parts: &[Part<'_>]) -> Result<(), DeviceFault>
        requires { length parts.now ≤ 7 }
        ensures { Wrote (seen self.old) (seen self.new) result
            (spelled (row kind.now (map item_of parts.now))) };
}

impl<W: Sink> RowSink for W {
    ghost use Rattle.lines.specs.Texts.{text_of};

    ghost seen = { W.seen };

    ghost spelled = { text_of };

    fn row(&mut self, _kind: &'static str, parts: &[Part<'_>]) -> Result<(), DeviceFault> {
        write_text(parts, self)
    }
}

impl<W: Sink> RowSink for Objects<W> {
    ghost use Rattle.lines.specs.Objects.{object_of};

    ghost seen = { λ s. W.seen s.sink };

    ghost spelled = { object_of };

    fn row(&mut self, kind: &'static str, parts: &[Part<'_>]) -> Result<(), DeviceFault> {
        write_object(kind, parts, &mut self.sink)
    }
}
