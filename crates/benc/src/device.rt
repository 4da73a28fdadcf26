//! Devices that bytes come from and go to. Each counts the calls that it answered with a fault.
ghost use Rattle.std.specs.Prelude.{◌≡◌, ◌+◌, ◌-◌, ◌^◌, ◌<◌, ◌≤◌, length, IfOk, OnOk, true};
ghost use Rattle.std.specs.Io.KnownBytes.{Keeps, ReadConsumes, WriteAppends};
ghost use Rattle.benc.specs.Device.{CountsFault, FallsBy, Wrote, one_more};
ghost use Rattle.benc.specs.declared.device.WriteFault.TheVariants.{Write};

use std::error::Error;
use std::fmt;

/// A device failed.
#[derive(Clone, Copy, Debug, PartialEq, Eq)]
pub struct DeviceFault;

impl fmt::Display for DeviceFault {
    ghost use Rattle.std.specs.Prelude.{Some};
    ghost use Rattle.benc.specs.Messages.{device_fault_text};

    ghost output = { λ fault. Some (device_fault_text fault) };

    fn fmt<W: fmt::Write>(&self, f: &mut fmt::Formatter<W>) -> fmt::Result {
        f.write_str("the device failed")
    }
}

impl Error for DeviceFault {}

/// A sink failed: a text did not go out whole, or was not flushed.
#[derive(Clone, Copy, Debug, PartialEq, Eq)]
pub enum WriteFault {
    /// The sink failed.
    Write,
}

impl fmt::Display for WriteFault {
    ghost use Rattle.std.specs.Prelude.{Some};
    ghost use Rattle.benc.specs.Messages.{write_fault_text};

    ghost output = { λ fault. Some (write_fault_text fault) };

    fn fmt<W: fmt::Write>(&self, f: &mut fmt::Formatter<W>) -> fmt::Result {
        match self {
            WriteFault::Write => f.write_str("cannot write"),
        }
    }
}

impl Error for WriteFault {}

impl From<DeviceFault> for WriteFault {
    ghost from_gives = { λ _ e. e ≡ Write };

    fn from(_fault: DeviceFault) -> WriteFault {
        WriteFault::Write
    }
}

/// A device that bytes come from.
pub trait Source {
    ghost use Rattle.benc.specs.Device.{SourceSeen};

    /// What callers see of it.
    ghost seen: { Self → SourceSeen };

    /// Fills a prefix of `buf` and answers its length, which is 0 only at the end or if `buf` is
    /// empty. A call that fails moves nothing, and is counted.
    fn read(&mut self, buf: &mut [u8]) -> Result<usize, DeviceFault>
        ensures bound { IfOk result (λ n. n ≤ length buf.new) }
        ensures bytes { ReadConsumes (seen self.old).left (seen self.new).left result buf.new }
        ensures falls { FallsBy (seen self.old).limit (seen self.new).limit result }
        ensures counts { CountsFault (seen self.old).faults (seen self.new).faults result };

    /// How many calls were answered with a fault, modulo 2^64.
    fn failures(&self) -> u64
        ensures { result ≡ (seen self.now).faults };

    ghost finite: { (source : Self) → (seen source).limit < 2 ^ 64 };
}

/// A device that bytes go to.
pub trait Sink {
    ghost use Rattle.benc.specs.Device.{SinkSeen};

    /// What callers see of it. No clause of `write` speaks of `is_flushed`.
    ghost seen: { Self → SinkSeen };

    /// Takes a prefix of `buf` and answers its length, which is 0 only if `buf` is empty. A call
    /// that fails moves nothing, and is counted.
    fn write(&mut self, buf: &[u8]) -> Result<usize, DeviceFault>
        ensures bound { IfOk result (λ n. n ≤ length buf.now) }
        ensures some { IfOk result (λ n. 0 < length buf.now → 0 < n) }
        ensures bytes { WriteAppends (seen self.old).written (seen self.new).written result
            buf.now }
        ensures counts { CountsFault (seen self.old).faults (seen self.new).faults result }
        ensures flushes { (seen self.new).flushes ≡ (seen self.old).flushes };

    /// Passes on what was written, and is counted whether it fails or not. It writes nothing.
    fn flush(&mut self) -> Result<(), DeviceFault>
        ensures bytes { Keeps (seen self.old).written (seen self.new).written }
        ensures flushed { OnOk result ((seen self.new).is_flushed ≡ true) }
        ensures counts { CountsFault (seen self.old).faults (seen self.new).faults result }
        ensures flushes { (seen self.new).flushes ≡ one_more (seen self.old).flushes };

    /// How many calls were answered with a fault, modulo 2^64.
    fn failures(&self) -> u64
        ensures { result ≡ (seen self.now).faults };
}

/// Writes all these bytes, and does not flush. After a fault a prefix of them went out.
pub fn write_all<W: Sink>(out: &mut W, bytes: &[u8]) -> Result<(), DeviceFault>
    ensures { Wrote (W.seen out.old) (W.seen out.new) result bytes.now }
{
    let mut start = 0;
    'parts: while start < bytes.len() {
        start += out.write(&bytes[start..])?;
    }
    Ok(())
}
