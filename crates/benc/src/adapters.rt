//! Readers and writers of std as devices. A call that std answers with an error, an interrupted one
//! too, is a fault of the device: it is counted and never made again.
ghost use Rattle.std.specs.Prelude.{◌≡◌, ◌-◌, ◌^◌, true};
ghost use Rattle.benc.specs.Device.{one_more};

use crate::device::{DeviceFault, Sink, Source};
use std::io::{Read, Write};

/// A reader of std as a source. It gives at most 2^64 - 1 bytes, and then each read is a fault.
#[derive(Drop)]
pub struct FromRead<R: Read> {
    reader: R,
    given: u64,
    faults: u64,
}

impl<R: Read> FromRead<R> {
    /// A source of what the reader gives from here on. No call has failed yet.
    pub fn new(reader: R) -> FromRead<R>
        ensures { ⟦<FromRead<R> as Source>⟧.seen result
            ≡ record { left = R.remaining reader; limit = 2 ^ 64 - 1; faults = 0 } }
    {
        FromRead {
            reader,
            given: 0,
            faults: 0,
        }
    }

    /// The reader, at the place that it has come to.
    pub fn into_inner(self) -> R
        ensures { R.remaining result ≡ (⟦<FromRead<R> as Source>⟧.seen self).left }
    {
        self.reader
    }

    // Counts a fault.
    fn fault(&mut self) -> DeviceFault
        ensures counts { self.new.faults ≡ one_more self.old.faults }
        ensures reader { self.new.reader ≡ self.old.reader }
        ensures given { self.new.given ≡ self.old.given }
    {
        self.faults = self.faults.wrapping_add(1);
        DeviceFault
    }
}

impl<R: Read> Source for FromRead<R> {
    ghost seen = { λ s. record {
      left = R.remaining s.reader;
      limit = 2 ^ 64 - 1 - s.given;
      faults = s.faults;
    } };

    fn read(&mut self, buf: &mut [u8]) -> Result<usize, DeviceFault> {
        let room = (buf.len() as u64).min(u64::MAX - self.given) as usize;
        if self.given == u64::MAX {
            return Err(self.fault());
        }
        match self.reader.read(&mut buf[..room]) {
            Ok(count) => {
                self.given += count as u64;
                Ok(count)
            }
            Err(_) => Err(self.fault()),
        }
    }

    fn failures(&self) -> u64 {
        self.faults
    }

    ghost use Rattle.std.proofs.Common.{arith};

    ghost finite = { λ s. Prim.omega arith };
}

/// A writer of std as a sink.
#[derive(Drop)]
pub struct FromWrite<W: Write> {
    writer: W,
    faults: u64,
    // Contracts alone read it.
    flushes: u64,
}

impl<W: Write> FromWrite<W> {
    /// A sink that writes to the writer. No call has failed yet.
    pub fn new(writer: W) -> FromWrite<W>
        ensures { ⟦<FromWrite<W> as Sink>⟧.seen result
            ≡ record { written = W.contents writer; faults = 0; flushes = 0; is_flushed = true } }
    {
        FromWrite {
            writer,
            faults: 0,
            flushes: 0,
        }
    }

    /// The writer, with all that was written to it.
    pub fn into_inner(self) -> W
        ensures { W.contents result ≡ (⟦<FromWrite<W> as Sink>⟧.seen self).written }
    {
        self.writer
    }

    // Counts a fault.
    fn fault(&mut self) -> DeviceFault
        ensures counts { self.new.faults ≡ one_more self.old.faults }
        ensures writer { self.new.writer ≡ self.old.writer }
        ensures flushes { self.new.flushes ≡ self.old.flushes }
    {
        self.faults = self.faults.wrapping_add(1);
        DeviceFault
    }
}

impl<W: Write> Sink for FromWrite<W> {
    // std says nothing of what a flush does.
    ghost seen = { λ s. record {
      written = W.contents s.writer;
      faults = s.faults;
      flushes = s.flushes;
      is_flushed = true;
    } };

    fn write(&mut self, buf: &[u8]) -> Result<usize, DeviceFault> {
        match self.writer.write(buf) {
            Ok(0) if !buf.is_empty() => Err(self.fault()),
            Ok(count) => Ok(count),
            Err(_) => Err(self.fault()),
        }
    }

    fn flush(&mut self) -> Result<(), DeviceFault> {
        self.flushes = self.flushes.wrapping_add(1);
        match self.writer.flush() {
            Ok(()) => Ok(()),
            Err(_) => Err(self.fault()),
        }
    }

    fn failures(&self) -> u64 {
        self.faults
    }
}
