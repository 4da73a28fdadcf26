//! A sink that keeps nothing.
use benc::{DeviceFault, Sink};

/// A sink that keeps nothing and never fails, where a type of sink has to be named.
#[derive(Drop)]
pub struct Nowhere {
    // How often it was flushed, modulo 2^64.
    flushes: u64,
}

impl Nowhere {
    /// A sink that keeps nothing.
    pub fn new() -> Nowhere {
        Nowhere { flushes: 0 }
    }
}

impl Sink for Nowhere {
    ghost use Rattle.std.specs.Prelude.{None, true};

    ghost seen = { λ s. record {
      written = None;
      faults = 0;
      flushes = s.flushes;
      is_flushed = true;
    } };

    fn write(&mut self, buf: &[u8]) -> Result<usize, DeviceFault> {
        Ok(buf.len())
    }

    fn flush(&mut self) -> Result<(), DeviceFault> {
        self.flushes = self.flushes.wrapping_add(1);
        Ok(())
    }

    fn failures(&self) -> u64 {
        0
    }
}
