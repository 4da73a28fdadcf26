//! Frames of a record: each message as it is written, read back.
ghost use Rattle.std.specs.Prelude.{◌≡◌, ℕ, [], List, length, Some, IfOk};
ghost use Rattle.wire.specs.Frames.{Frames};
ghost use Rattle.wire.specs.declared.form.Form.{Form as FormOf};
ghost use Rattle.wire.specs.Records.{Directed, RecordFrames};

use benc::memory::{MemSink, MemSource};
use benc::{DeviceFault, FromRead, Source, WriteFault};
use std::alloc::{AllocError, Global};
use std::io;
use std::process::Abort;
use std::test::*;
use wire::*;

// A loop over `advance` knows that what it met are the frames of the record.
fn count_frames<R: Source>(alloc: Global, source: &mut R) -> Result<u64, FrameFault>
    ensures { IfOk result (λ n. (bytes : List ℕ) → (R.seen source.old).left ≡ Some bytes
        → (bodies : List (List ℕ)) × Frames bytes bodies [] × (length bodies ≡ n)) }
{
    let mut reader = FrameReader::new(alloc, source);
    let mut n = 0u64;
    'frames: while reader.advance()? {
        let _ = reader.frame();
        n += 1;
    }
    Ok(n)
}

// The same over a record in either form.
fn count_directed<R: Source>(alloc: Global, source: &mut R) -> Result<u64, FrameFault>
    ensures { IfOk result (λ n. (bytes : List ℕ) → (R.seen source.old).left ≡ Some bytes
        → (form : FormOf) × (frames : List (Directed (List ℕ)))
        × RecordFrames bytes form frames [] × (length frames ≡ n)) }
{
    let mut reader = RecordReader::new(alloc, source);
    let mut n = 0u64;
    'frames: while reader.advance()? {
        let _ = reader.frame();
        n += 1;
    }
    Ok(n)
}

// A frame of zeros after its id.
fn frame(alloc: Global, id: u8, len: u32) -> Result<Vec<u8>, AllocError> {
    let mut bytes = Vec::from_slice(alloc, &len.to_be_bytes())?;
    bytes.push(id)?;
    bytes.resize(len as usize + 4, 0)?;
    Ok(bytes)
}

pub(crate) const RECORD: [u8; 31] = [
    0, 0, 0, 0, 0, 0, 0, 12, 7, 0, 0, 0, 0, 0, 0, 0, 0, 97, 98, 99, 0, 0, 0, 5, 4, 0, 0, 0, 0, 0, 0,
];

#[test]
fn a_record_has_so_many_frames(rt: HostRuntime) {
    for (record, count, directed) in [
        (&RECORD[..0], Ok(0), Ok(0)),
        (&RECORD[..29], Ok(3), Ok(3)),
        (
            &RECORD[..30],
            Err(FrameFault::Truncated),
            Err(FrameFault::Truncated),
        ),
        (b"\xff\xff\xff\xffBTH2", Err(FrameFault::Truncated), Ok(0)),
    ] {
        assert!(rt; count_frames(rt.alloc(), &mut MemSource::new(record)) == count);
        assert!(rt; count_directed(rt.alloc(), &mut MemSource::new(record)) == directed);
    }
}

// Whether the first frame has a message.
fn has_message<R: Source>(alloc: Global, source: &mut R) -> bool {
    let mut reader = FrameReader::new(alloc, source);
    matches!(reader.next(), Ok(Some(Frame::Message(_))))
}

// Ids, sizes, and whether a frame with them has a message.
const SIZES: &[(u8, u32, bool)] = &[
    (7, 8, false),
    (7, 9, true),
    (7, 263_217, true),
    (7, 263_218, false),
    (21, 48, false),
    (21, 49, true),
    (21, 50, false),
    (22, 48, false),
    (22, 49, true),
    (22, 50, false),
    (22, 80, false),
    (22, 81, true),
    (22, 263_217, true),
    (22, 263_249, false),
    (23, 48, false),
    (23, 49, true),
    (23, 50, false),
];

#[test]
fn each_size_is_right_or_wrong(rt: HostRuntime) {
    for (id, len, right) in SIZES {
        let bytes = frame(rt.alloc(), *id, *len).expect(&rt, "memory");
        let mut source = MemSource::new(&bytes);
        let is_message = has_message(rt.alloc(), &mut source);
        assert!(rt; is_message == *right, "id {id}, {len} bytes");
    }
}

const ASK: Ask = Ask {
    root: [9; 32],
    base: 0,
    index: 512,
    length: 512,
    proof: 9,
};

// Whether a message is written, and read back as it was.
fn comes_back(rt: &impl Abort, alloc: Global, m: &Message<'_>, room: usize) -> bool {
    let mut sink = MemSink::with_room(alloc, room)
        .expect(rt, "memory")
        .at_most(7);
    let is_written = m.is_writable() && write(m, &mut sink).is_ok();
    is_written && sink.written().len() == room && is_read(alloc, sink.written(), m)
}

// Whether a frame has this message, however it is cut.
fn is_read(alloc: Global, frame: &[u8], m: &Message<'_>) -> bool {
    for at_most in [1, 7, usize::MAX] {
        if !gives(alloc, &mut MemSource::new(frame).at_most(at_most), m) {
            return false;
        }
    }
    true
}

// Whether the source's one frame has this message.
fn gives<R: Source>(alloc: Global, source: &mut R, m: &Message<'_>) -> bool {
    let mut reader = FrameReader::new(alloc, source);
    let is_first = match reader.next() {
        Ok(Some(Frame::Message(found))) => found == *m,
        _ => false,
    };
    is_first && matches!(reader.next(), Ok(None))
}

#[test]
fn what_is_written_is_read(rt: HostRuntime) {
    let piece = Message::Piece {
        index: 3,
        begin: 16_384,
        block: &[5; 100],
    };
    let answer = Message::Hashes {
        ask: ASK,
        hashes: &[[7; 32]; 513],
    };
    for (message, size) in [
        (&Message::KeepAlive, 4),
        (&piece, 113),
        (&Message::Request(ASK), 53),
        (&answer, 16_469),
        (&Message::Reject(ASK), 53),
    ] {
        assert!(rt; comes_back(&rt, rt.alloc(), message, size), "{size} bytes");
    }
    assert!(rt; !Message::Other { id: 4, len: 5 }.is_writable());
}

// Whether a source's one frame is read by a reader that takes its room before and after.
fn reads_with_room<R: Source>(alloc: Global, source: &mut R) -> bool {
    let mut reader = FrameReader::new(alloc, source);
    let is_taken = reader.reserve().is_ok();
    let is_read = matches!(reader.next(), Ok(Some(Frame::Message(_))));
    is_taken && is_read && reader.reserve().is_ok() && matches!(reader.next(), Ok(None))
}

#[test]
fn room_is_taken_once(rt: HostRuntime) {
    let bytes = frame(rt.alloc(), 7, 10).expect(&rt, "memory");
    let mut source = MemSource::new(&bytes);
    let is_read = reads_with_room(rt.alloc(), &mut source);
    assert!(rt; is_read);
}

// Bytes that count how often they are read.
#[derive(Drop)]
struct Counted<'b> {
    bytes: &'b [u8],
    calls: u64,
}

impl io::Read for Counted<'_> {
    fn read(&mut self, buf: &mut [u8]) -> io::Result<usize> {
        self.calls = self.calls.wrapping_add(1);
        io::Read::read(&mut self.bytes, buf)
    }
}

// A frame takes a call for its length, and one each for its id and for what is behind it; the end
// takes one.
#[test]
fn no_call_is_needless(rt: HostRuntime) {
    for (bytes, calls) in [
        (&RECORD[..0], 1),
        (&RECORD[..4], 2),
        (&RECORD[..20], 5),
        (&RECORD[..29], 8),
    ] {
        let mut source = FromRead::new(Counted { bytes, calls: 0 });
        assert!(rt; count_frames(rt.alloc(), &mut source).is_ok(), "{calls}");
        assert!(rt; source.into_inner().calls == calls, "{calls}");
    }
}

// The root is 32 bytes of 9, a tab.
#[test]
fn a_request_to_the_byte(rt: HostRuntime) {
    let mut sink = MemSink::with_room(rt.alloc(), 53).expect(&rt, "memory");
    assert!(rt; write(&Message::Request(ASK), &mut sink).is_ok());
    assert!(rt;
        sink.written()
            == b"\0\0\0\x31\x15\
                 \t\t\t\t\t\t\t\t\t\t\t\t\t\t\t\t\t\t\t\t\t\t\t\t\t\t\t\t\t\t\t\t\
                 \0\0\0\0\0\0\x02\0\0\0\x02\0\0\0\0\x09"
                .as_slice()
    );
}

#[test]
fn printed_faults(rt: HostRuntime) {
    let text = format!(in rt.alloc();
        "{}, {}, {}, {}, {}, {}",
        DeviceFault,
        WriteFault::Write,
        FrameFault::Truncated,
        FrameFault::Read,
        FrameFault::NoMemory,
        FrameFault::BadDirection,
    );
    let wanted = "the device failed, cannot write, the input ends inside a frame, \
                  the source failed, out of memory, \
                  a byte before a frame is no direction";
    assert!(rt; text.expect(&rt, "memory").as_str() == wanted);
}
