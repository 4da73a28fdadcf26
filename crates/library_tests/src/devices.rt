//! Sources and sinks in memory that give a few bytes a call, or fail.
use crate::bencoding::copies;
use benc::memory::{Calls, MemSink, MemSource};
use benc::*;
use std::io;
use std::test::*;

#[test]
fn sources(rt: HostRuntime) {
    let mut buf = [0u8; 4];
    let mut cut = MemSource::new(b"abcde").at_most(3).fails_after(1);
    for (answer, given, faults) in [
        (Ok(3), b"abc" as &[u8], 0),
        (Err(DeviceFault), b"", 1),
        (Ok(2), b"de", 1),
        (Ok(0), b"", 1),
    ] {
        assert!(rt;
            cut.read(&mut buf) == answer && cut.failures() == faults,
            "{given:?}"
        );
        assert!(rt; buf.starts_with(given), "{given:?}");
    }
}

#[test]
fn a_reader_is_a_source(rt: HostRuntime) {
    let mut buf = [0u8; 4];
    let mut plain = FromRead::new(&b"xyz"[..]);
    assert!(rt; plain.read(&mut buf[..2]) == Ok(2) && buf.starts_with(b"xy"));
    assert!(rt; plain.into_inner() == b"z".as_slice());
}

// A reader and a writer that move nothing: a call claims all that it is asked for, up to a bound
// and to what is left. They count their calls, and those of these numbers fail.
#[derive(Drop)]
struct Claims {
    left: u64,
    at_most: u64,
    failing: &'static [u64],
    calls: u64,
    empty: u64,
    flushes: u64,
}

impl Claims {
    fn new(left: u64) -> Claims {
        Claims {
            left,
            at_most: u64::MAX,
            failing: &[],
            calls: 0,
            empty: 0,
            flushes: 0,
        }
    }

    fn at_most(mut self, count: u64) -> Claims {
        self.at_most = count;
        self
    }

    fn failing(mut self, calls: &'static [u64]) -> Claims {
        self.failing = calls;
        self
    }

    fn call(&mut self) -> io::Result<()> {
        self.calls = self.calls.wrapping_add(1);
        if self.failing.contains(&self.calls) {
            return Err(io::Error::from(io::ErrorKind::Interrupted));
        }
        Ok(())
    }

    fn claim(&mut self, count: usize) -> io::Result<usize> {
        if count == 0 {
            self.empty = self.empty.wrapping_add(1);
        }
        self.call()?;
        let claimed = (count as u64).min(self.at_most).min(self.left);
        self.left -= claimed;
        Ok(claimed as usize)
    }
}

impl io::Read for Claims {
    fn read(&mut self, buf: &mut [u8]) -> io::Result<usize> {
        Ok(self.claim(buf.len())?.min(buf.len()))
    }
}

impl io::Write for Claims {
    fn write(&mut self, buf: &[u8]) -> io::Result<usize> {
        Ok(self.claim(buf.len())?.min(buf.len()))
    }

    fn flush(&mut self) -> io::Result<()> {
        self.flushes = self.flushes.wrapping_add(1);
        self.call()
    }
}

// What a call of this number comes to, if it moves one byte or fails.
fn moved_by(failing: &[u64], call: u64) -> Result<usize, DeviceFault> {
    if failing.contains(&call) {
        return Err(DeviceFault);
    }
    Ok(1)
}

// Whether six reads fail where they are to, and are each made once.
fn reads_six(failing: &'static [u64], faults: u64) -> bool {
    let mut source = FromRead::new(Claims::new(8).at_most(1).failing(failing));
    let mut counted = 0u64;
    for call in 1..=6u64 {
        let moved = moved_by(failing, call);
        counted = counted.wrapping_add(u64::from(moved.is_err()));
        if source.read(&mut [0u8; 4]) != moved || source.failures() != counted {
            return false;
        }
    }
    counted == faults && source.into_inner().calls == 6
}

// The same of six writes and a flush.
fn writes_six(failing: &'static [u64], faults: u64) -> bool {
    let mut sink = FromWrite::new(Claims::new(8).at_most(1).failing(failing));
    let mut counted = 0u64;
    for call in 1..=6u64 {
        let moved = moved_by(failing, call);
        counted = counted.wrapping_add(u64::from(moved.is_err()));
        if sink.write(&[0u8; 4]) != moved || sink.failures() != counted {
            return false;
        }
    }
    counted == faults && flushes_once(sink, faults)
}

fn flushes_once(mut sink: FromWrite<Claims>, faults: u64) -> bool {
    let is_right = sink.flush() == Ok(()) && sink.failures() == faults;
    let writer = sink.into_inner();
    is_right && writer.calls == 7 && writer.flushes == 1
}

// A failed call is not made again, and the calls after it succeed, however many have failed.
#[test]
fn a_failed_call_is_a_fault(rt: HostRuntime) {
    for (failing, faults) in [(&[2u64] as &[u64], 1u64), (&[1, 2, 3, 4], 4)] {
        assert!(rt; reads_six(failing, faults) && writes_six(failing, faults));
    }
}

#[test]
fn a_flush_that_fails_is_a_fault(rt: HostRuntime) {
    let mut sink = FromWrite::new(Claims::new(8).failing(&[2]));
    assert!(rt; sink.flush() == Ok(()) && sink.failures() == 0);
    assert!(rt; sink.flush() == Err(DeviceFault) && sink.failures() == 1);
    assert!(rt; sink.write(b"ab") == Ok(2) && sink.flush() == Ok(()) && sink.failures() == 1);
    let writer = sink.into_inner();
    assert!(rt; writer.calls == 4 && writer.flushes == 3 && writer.left == 6);
}

#[test]
fn a_flush_that_fails_is_counted_too(rt: HostRuntime) {
    let room = MemSink::with_room(rt.alloc(), 4).expect(&rt, "memory");
    let mut out = room.fails_after(1);
    assert!(rt; out.write(b"ab") == Ok(2) && out.flush() == Err(DeviceFault));
    assert!(rt; !out.is_flushed() && out.flushes() == 1 && out.failures() == 1);
    assert!(rt; out.flush() == Ok(()) && out.flushes() == 2 && out.written() == b"ab".as_slice());
}

#[test]
fn one_call_fails(rt: HostRuntime) {
    let mut calls = Calls::that_succeed();
    assert!(rt; calls.next() == Ok(()) && calls.before_fault == None);
    calls.fail_after(1);
    for (answer, before_fault, faults) in [
        (Ok(()), Some(0), 0),
        (Err(DeviceFault), None, 1),
        (Ok(()), None, 1),
    ] {
        assert!(rt; calls.next() == answer && calls.before_fault == before_fault);
        assert!(rt; calls.faults == faults);
    }
}

// How often `write` of a writer is called for a text, which it takes this many bytes a call of.
fn writes_of(text: &[u8], at_most: u64) -> Option<u64> {
    let mut sink = FromWrite::new(Claims::new(u64::MAX).at_most(at_most));
    if write_all(&mut sink, text).is_err() {
        return None;
    }
    let writer = sink.into_inner();
    (writer.empty == 0 && writer.flushes == 0).then_some(writer.calls)
}

// Texts, how many bytes of them a call takes, and how many calls they take.
const WRITES: &[(&[u8], u64, u64)] = &[
    (b"", u64::MAX, 0),
    (b"a", u64::MAX, 1),
    (b"abcde", u64::MAX, 1),
    (b"abcde", 1, 5),
    (b"abcde", 2, 3),
    (b"abcdef", 2, 3),
];

#[test]
fn nothing_is_written_by_no_call(rt: HostRuntime) {
    for (text, at_most, writes) in WRITES {
        assert!(rt;
            writes_of(text, *at_most) == Some(*writes),
            "{at_most} bytes a call"
        );
    }
}

#[test]
fn no_value_is_encoded_by_an_empty_call(rt: HostRuntime) {
    let mut sink = FromWrite::new(Claims::new(u64::MAX));
    assert!(rt; copies(rt.alloc(), b"d0:0:1:alde0:ee", &mut sink));
    assert!(rt; sink.into_inner().empty == 0);
}

const LONG: u64 = 5 << 30;

// Reads to the end, and counts the bytes.
fn read_to_end<R: Source>(source: &mut R, buffer: &mut [u8]) -> Result<u64, DeviceFault> {
    let mut length = 0u64;
    for _ in 0..u64::MAX {
        match source.read(buffer)? {
            0 => break,
            count => length = length.wrapping_add(count as u64),
        }
    }
    Ok(length)
}

// Each read of a source is one of its reader, at the end too.
#[test]
fn more_than_four_gib_is_read(rt: HostRuntime) {
    let mut buffer = vec![in rt.alloc(); 0u8; 1 << 20].expect(&rt, "memory");
    let mut source = FromRead::new(Claims::new(LONG));
    assert!(rt; read_to_end(&mut source, &mut buffer) == Ok(LONG) && source.failures() == 0);
    assert!(rt; source.into_inner().calls == 5121);
}

// Whether this many writes of these bytes succeed.
fn writes_often<W: Sink>(sink: &mut W, bytes: &[u8], count: u64) -> bool {
    for _ in 0..count {
        if write_all(sink, bytes).is_err() {
            return false;
        }
    }
    true
}

// Each write of a sink is one of its writer. One of which nothing is taken is a fault.
#[test]
fn more_than_four_gib_is_written(rt: HostRuntime) {
    let buffer = vec![in rt.alloc(); 0u8; 1 << 20].expect(&rt, "memory");
    let mut sink = FromWrite::new(Claims::new(LONG));
    assert!(rt; writes_often(&mut sink, &buffer, 5120) && sink.failures() == 0);
    assert!(rt; write_all(&mut sink, &buffer) == Err(DeviceFault) && sink.failures() == 1);
    assert!(rt; sink.into_inner().calls == 5121);
}
