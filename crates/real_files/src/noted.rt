//! Readers and writers of std that say why they failed.
ghost use Rattle.std.specs.Prelude.{◌≡◌};

use crate::system::{Cause, System};
use std::io::{self, Read, Write};

/// A reader or writer whose failures are noted.
#[derive(Drop)]
pub struct Noted<'s, T> {
    device: T,
    system: &'s System,
}

impl<'s, T> Noted<'s, T> {
    /// This reader or writer.
    pub fn new(device: T, system: &'s System) -> Noted<'s, T>
        ensures { result.device ≡ device }
    {
        Noted { device, system }
    }
}

impl<'s, R: Read> Read for Noted<'s, R> {
    ghost remaining = { λ s. R.remaining s.device };

    fn read(&mut self, buf: &mut [u8]) -> io::Result<usize> {
        match self.device.read(buf) {
            Ok(count) => Ok(count),
            Err(error) => {
                self.system.note(Cause::Error(error));
                Err(error)
            }
        }
    }
}

impl<'s, W: Write> Write for Noted<'s, W> {
    ghost contents = { λ s. W.contents s.device };

    fn write(&mut self, buf: &[u8]) -> io::Result<usize> {
        match self.device.write(buf) {
            Ok(written) => Ok(written),
            Err(error) => {
                self.system.note(Cause::Error(error));
                Err(error)
            }
        }
    }

    fn flush(&mut self) -> io::Result<()> {
        match self.device.flush() {
            Ok(()) => Ok(()),
            Err(error) => {
                self.system.note(Cause::Error(error));
                Err(error)
            }
        }
    }
}
