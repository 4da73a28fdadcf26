//! A line that is put together in place, so that it goes out in one write.
ghost use Rattle.std.specs.Prelude.{◌≡◌, []};

use arrayvec::ArrayVec;
use benc::{DeviceFault, Sink};

/// The bytes of a line as far as there is room. What does not fit is a fault.
#[derive(Drop)]
pub(crate) struct Gathered {
    bytes: ArrayVec<u8, 256>,
    faults: u64,
    flushes: u64,
}

impl Gathered {
    /// A line with nothing in it.
    pub(crate) fn new() -> Gathered
        ensures { result.bytes.items ≡ [] }
    {
        Gathered {
            bytes: ArrayVec::new(),
            faults: 0,
            flushes: 0,
        }
    }

    /// The line so far.
    pub(crate) fn as_slice(&self) -> &[u8]
        ensures { result.now ≡ self.now.bytes.items }
    {
        &self.bytes
    }
}

impl Sink for Gathered {
    ghost use Rattle.std.specs.Prelude.{Some, true};

    ghost seen = { λ s. record {
      written = Some s.bytes.items;
      faults = s.faults;
      flushes = s.flushes;
      is_flushed = true;
    } };

    fn write(&mut self, buf: &[u8]) -> Result<usize, DeviceFault> {
        match self.bytes.try_extend_from_slice(buf) {
            Ok(()) => Ok(buf.len()),
            Err(_) => {
                self.faults = self.faults.wrapping_add(1);
                Err(DeviceFault)
            }
        }
    }

    fn flush(&mut self) -> Result<(), DeviceFault> {
        self.flushes = self.flushes.wrapping_add(1);
        Ok(())
    }

    fn failures(&self) -> u64 {
        self.faults
    }
}
