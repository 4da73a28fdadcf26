//! A sink that keeps a text.

ghost use Rattle.std.specs.Prelude.{◌≡◌, [], Some, true};

use benc::{DeviceFault, Sink};
use std::alloc::Global;

/// A sink that keeps what is written. A call fails only if memory was refused.
#[derive(Drop)]
pub(crate) struct TextSink {
    bytes: Vec<u8>,
    failures: u64,
    flushes: u64,
    is_flushed: bool,
}

impl TextSink {
    /// A sink to which nothing was written. It takes no memory.
    pub(crate) fn new(alloc: Global) -> TextSink
        ensures { ⟦<TextSink as Sink>⟧.seen result
            ≡ record { written = Some []; faults = 0; flushes = 0; is_flushed = true } }
    {
        TextSink {
            bytes: Vec::new(alloc),
            failures: 0,
            flushes: 0,
            is_flushed: true,
        }
    }

    /// What was written.
    pub(crate) fn into_text(self) -> Vec<u8>
        ensures { (⟦<TextSink as Sink>⟧.seen self).written ≡ Some result.items }
    {
        self.bytes
    }
}

impl Sink for TextSink {
    ghost seen = { λ s. record {
      written = Some s.bytes.items;
      faults = s.failures;
      flushes = s.flushes;
      is_flushed = s.is_flushed;
    } };

    fn write(&mut self, buf: &[u8]) -> Result<usize, DeviceFault> {
        if self.bytes.extend_from_slice(buf).is_err() {
            self.failures = self.failures.wrapping_add(1);
            return Err(DeviceFault);
        }
        self.is_flushed = false;
        Ok(buf.len())
    }

    fn flush(&mut self) -> Result<(), DeviceFault> {
        self.flushes = self.flushes.wrapping_add(1);
        self.is_flushed = true;
        Ok(())
    }

    fn failures(&self) -> u64 {
        self.failures
    }
}
