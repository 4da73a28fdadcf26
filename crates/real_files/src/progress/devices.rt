//! The devices that move the line.
ghost use Rattle.std.specs.Prelude.{◌≡◌};

use crate::progress::screen::Progress;
use benc::{DeviceFault, Sink, Source};
use std::convert::AsStr;

/// A source whose reads are noted.
#[derive(Drop)]
pub struct Counted<'p, R: Source, N: AsStr> {
    source: R,
    name: N,
    progress: &'p Progress,
    // The place in all bytes.
    place: u64,
}

impl<'p, R: Source, N: AsStr> Counted<'p, R, N> {
    /// This source, of the file with this name, whose first byte has this place in all bytes.
    pub fn new(source: R, name: N, place: u64, progress: &'p Progress) -> Counted<'p, R, N>
        ensures { ⟦<Counted<'p, R, N> as Source>⟧.seen result ≡ R.seen source }
    {
        Counted {
            source,
            name,
            progress,
            place,
        }
    }

    /// The name of the file.
    pub(crate) fn name(&self) -> &str {
        self.name.as_str()
    }
}

impl<'p, R: Source, N: AsStr> Source for Counted<'p, R, N> {
    ghost seen = { λ s. R.seen s.source };

    fn read(&mut self, buf: &mut [u8]) -> Result<usize, DeviceFault> {
        match self.source.read(buf) {
            Ok(count) => {
                self.place = self.place.saturating_add(count as u64);
                self.progress.note(count, self.place, self.name.as_str());
                Ok(count)
            }
            Err(fault) => Err(fault),
        }
    }

    fn failures(&self) -> u64 {
        self.source.failures()
    }

    ghost finite = { λ s. R.finite s.source };
}

/// A sink before whose writes the line is taken away, if there is one.
#[derive(Drop)]
pub struct Cleared<'p, W: Sink> {
    pub(crate) sink: W,
    progress: Option<&'p Progress>,
}

impl<'p, W: Sink> Cleared<'p, W> {
    /// This sink.
    pub fn new(sink: W, progress: Option<&'p Progress>) -> Cleared<'p, W>
        ensures seen { ⟦<Cleared<'p, W> as Sink>⟧.seen result ≡ W.seen sink }
        ensures line { result.progress ≡ progress.entry }
    {
        Cleared { sink, progress }
    }
}

impl<'p, W: Sink> Sink for Cleared<'p, W> {
    ghost seen = { λ s. W.seen s.sink };

    fn write(&mut self, buf: &[u8]) -> Result<usize, DeviceFault> {
        if let Some(progress) = self.progress {
            progress.clear();
        }
        self.sink.write(buf)
    }

    fn flush(&mut self) -> Result<(), DeviceFault> {
        self.sink.flush()
    }

    fn failures(&self) -> u64 {
        self.sink.failures()
    }
}
