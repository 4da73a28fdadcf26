//! A sink over memory.
ghost use Rattle.std.specs.Prelude.{◌≡◌, ◌≢◌, ◌+◌, ◌-◌, ◌<◌, ◌≤◌, ◌^◌, ◌⊎◌, [], length, min, Some, None, IfOk, OnOk, OnErr, MatchResult, true, false, vec_len, vec_capacity};
ghost use Rattle.std.specs.Io.KnownBytes.{Keeps, WriteAppends};
ghost use Rattle.benc.specs.Calls.{FailsInTurn, after_call};
ghost use Rattle.benc.specs.Device.{CountsFault, FallsBy, one_more};

use crate::device::{DeviceFault, Sink};
use crate::memory::calls::Calls;
use std::alloc::{AllocError, Global};

/// A sink that keeps what was written, in room that was taken when it was made. A full one fails.
#[derive(Drop)]
pub struct MemSink {
    bytes: Vec<u8>,
    room: usize,
    at_most: usize,
    calls: Calls,
    flushes: u64,
    flushed: bool,
    ghost some: { 0 < at_most },
    ghost fits: { vec_len bytes + room ≤ vec_capacity bytes },
}

impl MemSink {
    ghost use Rattle.benc.specs.MemDevices.{most_taken, room_left, sink_calls};

    /// A sink with room for this many bytes, whose calls take as many bytes as there is room for.
    pub fn with_room(alloc: Global, room: usize) -> Result<MemSink, AllocError>
        ensures room { IfOk result (λ s. room_left s ≡ room) }
        ensures bound { IfOk result (λ s. most_taken s ≡ 2 ^ 64 - 1) }
        ensures succeeds { IfOk result (λ s. (sink_calls s).before_fault ≡ None) }
        ensures seen { IfOk result (λ s. ⟦<MemSink as Sink>⟧.seen s
            ≡ record { written = Some []; faults = 0; flushes = 0; is_flushed = true }) }
    {
        Ok(MemSink {
            bytes: Vec::with_capacity(alloc, room)?,
            room,
            at_most: usize::MAX,
            calls: Calls::that_succeed(),
            flushes: 0,
            flushed: true,
        })
    }

    /// From here on a call takes at most this many bytes. Condition: they are one at least.
    pub fn at_most(mut self, count: usize) -> MemSink
        requires { 0 < count }
        ensures bound { most_taken result ≡ count }
        ensures room { room_left result ≡ room_left self }
        ensures calls { sink_calls result ≡ sink_calls self }
        ensures seen { ⟦<MemSink as Sink>⟧.seen result ≡ ⟦<MemSink as Sink>⟧.seen self }
    {
        self.at_most = count;
        self
    }

    /// This many further calls succeed, flushes among them, and the one after them fails and takes
    /// nothing. Later ones succeed.
    pub fn fails_after(mut self, calls: u64) -> MemSink
        ensures fails { (sink_calls result).before_fault ≡ Some calls }
        ensures bound { most_taken result ≡ most_taken self }
        ensures room { room_left result ≡ room_left self }
        ensures seen { ⟦<MemSink as Sink>⟧.seen result ≡ ⟦<MemSink as Sink>⟧.seen self }
    {
        self.calls.fail_after(calls);
        self
    }

    /// The bytes that were written.
    pub fn written(&self) -> &[u8]
        ensures { (⟦<MemSink as Sink>⟧.seen self.now).written ≡ Some result.now }
    {
        &self.bytes
    }

    /// How often `flush` was called, modulo 2^64.
    pub fn flushes(&self) -> u64
        ensures { result ≡ (⟦<MemSink as Sink>⟧.seen self.now).flushes }
    {
        self.flushes
    }

    /// Nothing was written after the last flush.
    pub fn is_flushed(&self) -> bool
        ensures { result ≡ (⟦<MemSink as Sink>⟧.seen self.now).is_flushed }
    {
        self.flushed
    }
}

impl Sink for MemSink {
    ghost use Rattle.benc.specs.MemDevices.{bytes_in_sink, flush_count, has_flushed, most_taken, room_left, sink_calls};

    ghost seen = { λ s. record {
      written = Some (bytes_in_sink s);
      faults = (sink_calls s).faults;
      flushes = flush_count s;
      is_flushed = has_flushed s;
    } };

    fn write(&mut self, buf: &[u8]) -> Result<usize, DeviceFault>
        ensures takes { IfOk result (λ n.
            n ≡ min (min (length buf.now) (most_taken self.old)) (room_left self.old)) }
        ensures bound { IfOk result (λ n. n ≤ length buf.now) }
        ensures some { IfOk result (λ n. 0 < length buf.now → 0 < n) }
        ensures bytes { WriteAppends (Some (bytes_in_sink self.old)) (Some (bytes_in_sink self.new))
            result buf.now }
        ensures room { FallsBy (room_left self.old) (room_left self.new) result }
        ensures full { OnErr result
            (((sink_calls self.old).before_fault ≡ Some 0) ⊎ (room_left self.old ≡ 0)) }
        ensures succeeds { OnOk result ((sink_calls self.old).before_fault ≢ Some 0) }
        ensures later { (sink_calls self.new).before_fault
            ≡ after_call (sink_calls self.old).before_fault }
        ensures counts { CountsFault (sink_calls self.old).faults (sink_calls self.new).faults
            result }
        ensures bounded { most_taken self.new ≡ most_taken self.old }
        ensures flushes { flush_count self.new ≡ flush_count self.old }
        ensures flushed { MatchResult result (λ _. has_flushed self.new ≡ false)
            (λ _. has_flushed self.new ≡ has_flushed self.old) }
    {
        self.calls.next()?;
        let count = buf.len().min(self.at_most).min(self.room);
        if count == 0 && !buf.is_empty() {
            return Err(self.calls.fault());
        }
        if self.bytes.extend_from_slice(&buf[..count]).is_err() {
            return Err(self.calls.fault());
        }
        self.room -= count;
        self.flushed = false;
        Ok(count)
    }

    fn flush(&mut self) -> Result<(), DeviceFault>
        ensures bytes { Keeps (Some (bytes_in_sink self.old)) (Some (bytes_in_sink self.new)) }
        ensures room { room_left self.new ≡ room_left self.old }
        ensures fails { FailsInTurn (sink_calls self.old) result }
        ensures later { (sink_calls self.new).before_fault
            ≡ after_call (sink_calls self.old).before_fault }
        ensures counts { CountsFault (sink_calls self.old).faults (sink_calls self.new).faults
            result }
        ensures bounded { most_taken self.new ≡ most_taken self.old }
        ensures flushes { flush_count self.new ≡ one_more (flush_count self.old) }
        ensures flushed { MatchResult result (λ _. has_flushed self.new ≡ true)
            (λ _. has_flushed self.new ≡ has_flushed self.old) }
    {
        self.flushes = self.flushes.wrapping_add(1);
        self.calls.next()?;
        self.flushed = true;
        Ok(())
    }

    fn failures(&self) -> u64 {
        self.calls.faults
    }
}
