//! A reader of frames that lends its own buffer.
ghost use mir.Syntax.{named};
ghost use Rattle.std.specs.Prelude.{◌≡◌, vec_capacity, ℕ, List, [], IfOk, IfSome};
ghost use Rattle.std.specs.Borrow.{sem};
ghost use Rattle.std.specs.Io.BufRead.{Rests};
ghost use Rattle.wire.specs.Meaning.{Means};
ghost use Rattle.wire.specs.Reserving.{Reserves};
ghost use Rattle.wire.specs.Rows.{bytes_row};
ghost use Rattle.wire.specs.contracts.reader.FrameReader.{the_row};

use crate::fault::FrameFault;
use crate::frame::{Frame, Head, frame_of};
use crate::framing::{read_frame, take_room};
use benc::Source;
use std::alloc::{AllocError as NoMemory, Global};

/// How far a reader has come.
#[derive(Clone, Copy)]
pub(crate) enum State {
    /// More may come.
    Open,
    /// The source ended between two frames.
    Ended,
    /// No frame came, and none will.
    Failed(FrameFault),
}

/// Reads the frames of a source, one after the other. It keeps at most one body, of 263,217 bytes
/// at most. `B` is the type of its buffer; write `FrameReader<'r, R>`.
pub struct FrameReader<'r, R: Source, B: Drop = Vec<u8>> {
    source: &'r mut R,
    state: State,
    head: Head,
    kept: B,
}

impl<'r, R: Source> FrameReader<'r, R> {
    ghost use Rattle.wire.specs.Reader.{Advances, AsksNext, HasFailed, HasRoom, HoldsBody, IsOpen, IsSameButRoom, ReadsThrough, kept_len, room, source_of};

    /// A reader of what the source gives from here on. It takes no memory yet.
    pub fn new(alloc: Global, source: &'r mut R) -> FrameReader<'r, R>
        ensures same_reference { ReadsThrough result source.entry }
        ensures source { source_of result ≡ source.old }
        ensures open { IsOpen result }
        ensures kept { kept_len result ≡ 0 }
        ensures no_memory { room result ≡ 0 }
    {
        FrameReader {
            source,
            state: State::Open,
            head: Head::KeepAlive,
            kept: Vec::new(alloc),
        }
    }

    /// Takes all the room that the reader will need, and no more: after `Ok` no call answers
    /// `NoMemory`. After the end and after a fault the reader needs none, and this is `Ok`; but a
    /// reader that has answered `NoMemory` answers it again. After a refusal the reader is
    /// unchanged.
    pub fn reserve(&mut self) -> Result<(), NoMemory>
        ensures room { Reserves self.old.state (room self.old) result (room self.new) }
        ensures unchanged { IsSameButRoom self.old self.new }
    {
        reserve(self.state, &mut self.kept)
    }

    /// The next frame, or `None` at the end of the source. After `None` and after a fault each
    /// later call answers the same and reads nothing. `NoMemory` comes only while the buffer has no
    /// room for the longest body, after the length and the id of a message of a known kind.
    pub fn next(&mut self) -> Result<Option<Frame<'_>>, FrameFault>
        ensures means { IfOk result (λ found. IfSome found (λ f. (body : List ℕ) × Means body f)) }
        ensures* after_loan { sem 𝓛 (Rests
            (the_row (record { mir = named 1; lft = [] }) R.row bytes_row) self.entry
            (λ new. AsksNext R.seen self.entry.now result new)) }
    {
        if self.advance()? {
            Ok(Some(self.frame()))
        } else {
            Ok(None)
        }
    }

    /// Reads the next frame, and answers whether there is one: `false` is the end of the source.
    /// The frame is then `frame()`. It is `next` in two steps, of which only the second borrows.
    pub fn advance(&mut self) -> Result<bool, FrameFault>
        ensures { Advances R.seen self.old result self.new }
    {
        match self.state {
            State::Open => {}
            State::Ended => return Ok(false),
            State::Failed(fault) => return Err(fault),
        }
        match read_frame(self.source, &mut self.kept) {
            Ok(Some(head)) => {
                self.head = head;
                Ok(true)
            }
            Ok(None) => {
                self.state = State::Ended;
                Ok(false)
            }
            Err(fault) => {
                self.state = State::Failed(fault);
                Err(fault)
            }
        }
    }

    /// The frame that `advance` read last. It borrows the reader's own buffer. Condition: the last
    /// call of `advance` answered `true`.
    pub fn frame(&self) -> Frame<'_>
        requires held { (body : List ℕ) × HoldsBody self.now body }
        ensures { (body : List ℕ) → HoldsBody self.now body → Means body result }
    {
        frame_of(self.head, &self.kept)
    }
}

impl<R: Source, B: Drop> Drop for FrameReader<'_, R, B> {
    fn drop(self)
        ensures { self.exit.0.now ≡ self.entry.source.now }
    {
        let FrameReader {
            source: _,
            state: _,
            head: _,
            kept: _,
        } = self;
    }
}

/// Takes the room that an open reader will need; a closed one needs none. One that has answered
/// `NoMemory` answers it again.
pub(crate) fn reserve(state: State, kept: &mut Vec<u8>) -> Result<(), NoMemory>
    ensures room { Reserves state (vec_capacity kept.old) result (vec_capacity kept.new) }
    ensures unchanged { kept.new.items ≡ kept.old.items }
{
    match state {
        State::Open => take_room(kept),
        State::Failed(FrameFault::NoMemory) => Err(NoMemory),
        State::Ended | State::Failed(_) => Ok(()),
    }
}
