//! Lines that are watched as they go by.
use benc::DeviceFault;
use lines::{Line, LineSink};

/// What sees lines go by.
pub(crate) trait Watch {
    /// Sees a line before it is written.
    fn see(&mut self, line: &Line<'_>);
}

/// What has the lines watched that are said to another one that takes lines.
#[derive(Drop)]
pub(crate) struct Watched<L: LineSink, V: Watch> {
    lines: L,
    watch: V,
}

impl<L: LineSink, V: Watch> Watched<L, V> {
    /// No line has been said to this one.
    pub(crate) fn new(lines: L, watch: V) -> Watched<L, V> {
        Watched { lines, watch }
    }

    /// What has seen them.
    pub(crate) fn watch(&self) -> &V {
        &self.watch
    }
}

impl<L: LineSink, V: Watch> LineSink for Watched<L, V> {
    ghost seen = { λ s. L.seen s.lines };

    ghost spelled = { L.spelled };

    fn say(&mut self, line: &Line<'_>) -> Result<(), DeviceFault> {
        self.watch.see(line);
        self.lines.say(line)
    }

    fn finish(&mut self) -> Result<(), DeviceFault> {
        self.lines.finish()
    }

    fn faults(&self) -> u64 {
        self.lines.faults()
    }
}
