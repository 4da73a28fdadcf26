//! Standard output, with or without a buffer, and with or without a progress line.
ghost use Rattle.std.specs.Prelude.{◌≡◌, Some};

use crate::noted::Noted;
use crate::progress::{Cleared, Progress};
use crate::system::System;
use benc::{DeviceFault, FromWrite, Sink};
use printing::Fault;
use std::io::{self, BufWriter, IsTerminal, LineWriter, Printer, Write};

/// Standard output. Its failures are noted, and the progress line is taken away before its writes,
/// if there is one.
#[derive(Drop)]
pub struct StandardOutput<'s> {
    sink: Cleared<'s, FromWrite<Buffering<'s>>>,
}

type Output<'s> = Noted<'s, Printer<'s, HostRuntime>>;

// When what is written goes out: at once, with each line, or once a buffer is full.
#[derive(Drop)]
enum Buffering<'s> {
    Unbuffered(Output<'s>),
    ByLine(LineWriter<Output<'s>>),
    Full(BufWriter<Output<'s>>),
}

impl<'s> StandardOutput<'s> {
    /// What is written goes out at once.
    pub fn unbuffered(system: &'s System) -> StandardOutput<'s> {
        StandardOutput::of(Buffering::Unbuffered(output(system)))
    }

    /// Standard output with a buffer, for text of many small parts.
    pub fn buffered(system: &'s System) -> Result<StandardOutput<'s>, Fault<'static>> {
        match BufWriter::new(system.alloc(), output(system)) {
            Ok(buffered) => Ok(StandardOutput::of(Buffering::Full(buffered))),
            Err(_) => Err(Fault::NoMemory),
        }
    }

    /// The same, but a terminal gets each line as soon as it is whole.
    pub fn live(system: &'s System) -> Result<StandardOutput<'s>, Fault<'static>> {
        if !system.rt().stdout().is_terminal() {
            return StandardOutput::buffered(system);
        }
        match LineWriter::new(system.alloc(), output(system)) {
            Ok(by_line) => Ok(StandardOutput::of(Buffering::ByLine(by_line))),
            Err(_) => Err(Fault::NoMemory),
        }
    }

    // No call has failed yet, and there is no line.
    fn of(buffering: Buffering<'s>) -> StandardOutput<'s> {
        StandardOutput {
            sink: Cleared::new(FromWrite::new(buffering), None),
        }
    }

    /// The same, before whose writes this line is taken away.
    pub fn below(self, progress: &'s Progress) -> StandardOutput<'s>
        ensures seen { ⟦<StandardOutput<'s> as Sink>⟧.seen result
            ≡ ⟦<StandardOutput<'s> as Sink>⟧.seen self.entry }
        ensures line { result.sink.progress ≡ Some progress.entry }
    {
        StandardOutput {
            sink: Cleared::new(self.sink.sink, Some(progress)),
        }
    }
}

fn output<'s>(system: &'s System) -> Output<'s> {
    Noted::new(io::writer(system.rt()), system)
}

impl<'s> Sink for StandardOutput<'s> {
    ghost seen = { λ s. ⟦<Cleared<'s, FromWrite<Buffering<'s>>> as Sink>⟧.seen s.sink };

    fn write(&mut self, buf: &[u8]) -> Result<usize, DeviceFault> {
        self.sink.write(buf)
    }

    fn flush(&mut self) -> Result<(), DeviceFault> {
        self.sink.flush()
    }

    fn failures(&self) -> u64 {
        self.sink.failures()
    }
}

// As std, it does not say what went out.
impl Write for Buffering<'_> {
    fn write(&mut self, buf: &[u8]) -> io::Result<usize> {
        match self {
            Buffering::Unbuffered(out) => out.write(buf),
            Buffering::ByLine(out) => out.write(buf),
            Buffering::Full(out) => out.write(buf),
        }
    }

    fn flush(&mut self) -> io::Result<()> {
        match self {
            Buffering::Unbuffered(out) => out.flush(),
            Buffering::ByLine(out) => out.flush(),
            Buffering::Full(out) => out.flush(),
        }
    }
}
