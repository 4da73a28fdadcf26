//! A source over bytes in memory.
ghost use Rattle.std.specs.Prelude.{◌≡◌, ◌-◌, ◌<◌, ◌≤◌, ◌^◌, length, min, Some, None, IfOk};
ghost use Rattle.std.specs.Io.KnownBytes.{ReadConsumes};
ghost use Rattle.benc.specs.Calls.{FailsInTurn, after_call};
ghost use Rattle.benc.specs.Device.{CountsFault, FallsBy};

use crate::device::{DeviceFault, Source};
use crate::memory::calls::Calls;

/// A source that gives these bytes.
#[derive(Drop)]
pub struct MemSource<'a> {
    rest: &'a [u8],
    at_most: usize,
    calls: Calls,
    ghost some: { 0 < at_most },
    ghost finite: { length rest.now < 2 ^ 64 },
}

impl<'a> MemSource<'a> {
    ghost use Rattle.benc.specs.MemDevices.{bytes_left, most_given, source_calls};

    /// A source whose calls give as many bytes as there is room for, and never fail.
    pub fn new(bytes: &'a [u8]) -> MemSource<'a>
        ensures bytes { bytes_left result ≡ bytes.entry.now }
        ensures bound { most_given result ≡ 2 ^ 64 - 1 }
        ensures succeeds { (source_calls result).before_fault ≡ None }
        ensures seen { ⟦<MemSource<'a> as Source>⟧.seen result
            ≡ record { left = Some bytes.entry.now; limit = length bytes.entry.now; faults = 0 } }
    {
        MemSource {
            rest: bytes,
            at_most: usize::MAX,
            calls: Calls::that_succeed(),
        }
    }

    /// From here on a call gives at most this many bytes. Condition: they are one at least.
    pub fn at_most(mut self, count: usize) -> MemSource<'a>
        requires { 0 < count }
        ensures bound { most_given result ≡ count }
        ensures calls { source_calls result ≡ source_calls self.entry }
        ensures seen { ⟦<MemSource<'a> as Source>⟧.seen result
            ≡ ⟦<MemSource<'a> as Source>⟧.seen self.entry }
    {
        self.at_most = count;
        self
    }

    /// This many further calls succeed, and the one after them fails and gives nothing. Later ones
    /// succeed.
    pub fn fails_after(mut self, calls: u64) -> MemSource<'a>
        ensures fails { (source_calls result).before_fault ≡ Some calls }
        ensures bound { most_given result ≡ most_given self.entry }
        ensures seen { ⟦<MemSource<'a> as Source>⟧.seen result
            ≡ ⟦<MemSource<'a> as Source>⟧.seen self.entry }
    {
        self.calls.fail_after(calls);
        self
    }
}

impl<'a> Source for MemSource<'a> {
    ghost use Rattle.benc.specs.MemDevices.{bytes_left, most_given, source_calls};

    ghost seen = { λ s. record {
      left = Some (bytes_left s);
      limit = length (bytes_left s);
      faults = (source_calls s).faults;
    } };

    fn read(&mut self, buf: &mut [u8]) -> Result<usize, DeviceFault>
        ensures gives { IfOk result (λ n.
            n ≡ min (min (length buf.new) (most_given self.old)) (length (bytes_left self.old))) }
        ensures bound { IfOk result (λ n. n ≤ length buf.new) }
        ensures bytes { ReadConsumes (Some (bytes_left self.old)) (Some (bytes_left self.new))
            result buf.new }
        ensures falls { FallsBy (length (bytes_left self.old)) (length (bytes_left self.new))
            result }
        ensures fails { FailsInTurn (source_calls self.old) result }
        ensures later { (source_calls self.new).before_fault
            ≡ after_call (source_calls self.old).before_fault }
        ensures counts { CountsFault (source_calls self.old).faults (source_calls self.new).faults
            result }
        ensures bounded { most_given self.new ≡ most_given self.old }
    {
        self.calls.next()?;
        let count = buf.len().min(self.at_most).min(self.rest.len());
        let (given, rest) = self.rest.split_at(count);
        buf[..count].copy_from_slice(given);
        self.rest = rest;
        Ok(count)
    }

    fn failures(&self) -> u64 {
        self.calls.faults
    }

    ghost finite = { λ s. s.finite };
}
