//! A reader of records in both forms that lends its own buffer.
ghost use mir.Syntax.{named};
ghost use Rattle.std.specs.Prelude.{◌≡◌, ◌⊎◌, OnOk, OnErr, ℕ, List, [], None, IfOk, IfSome, option_map};
ghost use Rattle.std.specs.Borrow.{sem};
ghost use Rattle.std.specs.Io.BufRead.{Rests};
ghost use Rattle.wire.specs.Meaning.{Means};
ghost use Rattle.wire.specs.Records.{Directed, MeansDirected, form_number};
ghost use Rattle.wire.specs.Reserving.{Reserves};
ghost use Rattle.wire.specs.Rows.{bytes_row};
ghost use Rattle.wire.specs.contracts.record_reader.RecordReader.{the_row};

use crate::fault::FrameFault;
use crate::form::{Direction, Form};
use crate::frame::{Frame, Head, frame_of};
use crate::reader::{State, reserve};
use crate::record::read_next;
use benc::Source;
use std::alloc::{AllocError as NoMemory, Global};

/// Reads the frames of a record, one after the other, with their directions. It finds the form by
/// the first bytes: a record of form 2 begins with the eight bytes `ffffffff42544832`, and every
/// other record is of form 1, whose frames all came in. It keeps what a `FrameReader` keeps.
/// `B` is the type of its buffer; write `RecordReader<'r, R>`.
pub struct RecordReader<'r, R: Source, B: Drop = Vec<u8>> {
    source: &'r mut R,
    state: State,
    form: Option<Form>,
    direction: Direction,
    head: Head,
    kept: B,
}

impl<'r, R: Source> RecordReader<'r, R> {
    ghost use Rattle.wire.specs.Reader.{HasFailed, HasRoom, IsOpen, IsSameButRoom, ReadsThrough, kept_len, room};
    ghost use Rattle.wire.specs.RecordReader.{AdvancesInRecord, AsksNextInRecord, HoldsDirected, form_of, frame_reader, record_source_of};

    /// A reader of the record that the source gives from here on. It takes no memory yet.
    pub fn new(alloc: Global, source: &'r mut R) -> RecordReader<'r, R>
        ensures same_reference { ReadsThrough (frame_reader result) source.entry }
        ensures source { record_source_of result ≡ source.old }
        ensures open { IsOpen (frame_reader result) }
        ensures form { form_of result ≡ None }
        ensures kept { kept_len (frame_reader result) ≡ 0 }
        ensures no_memory { room (frame_reader result) ≡ 0 }
    {
        RecordReader {
            source,
            state: State::Open,
            form: None,
            direction: Direction::In,
            head: Head::KeepAlive,
            kept: Vec::new(alloc),
        }
    }

    /// The number of the record's form, 1 or 2: `None` before the first frame was asked for, and if
    /// that call answered a fault.
    pub fn form(&self) -> Option<u8>
        ensures { result ≡ option_map form_number (form_of self.now) }
    {
        self.form.map(|form| form.number())
    }

    /// Takes all the room that the reader will need, and no more: after `Ok` no call answers
    /// `NoMemory`. After the end and after a fault the reader needs none, and this is `Ok`; but a
    /// reader that has answered `NoMemory` answers it again. After a refusal the reader is
    /// unchanged.
    pub fn reserve(&mut self) -> Result<(), NoMemory>
        ensures room { Reserves self.old.state (room (frame_reader self.old)) result
            (room (frame_reader self.new)) }
        ensures unchanged { IsSameButRoom (frame_reader self.old) (frame_reader self.new)
            × (form_of self.new ≡ form_of self.old) × (self.new.direction ≡ self.old.direction) }
    {
        reserve(self.state, &mut self.kept)
    }

    /// The next frame with its direction, or `None` at the end of the record. `Truncated` comes if
    /// the record ends inside a frame, or after a direction; `BadDirection` at a byte that is no
    /// direction, after which up to four bytes may have been read. After `None` and after a fault
    /// each later call answers the same and reads nothing. `NoMemory` comes only while the buffer
    /// has no room for the longest body, after the length and the id of a message of a known kind.
    pub fn next(&mut self) -> Result<Option<(Direction, Frame<'_>)>, FrameFault>
        ensures means { IfOk result (λ found. IfSome found (λ f. (body : List ℕ)
            × Means body f.1)) }
        ensures* after_loan { sem 𝓛 (Rests
            (the_row (record { mir = named 1; lft = [] }) R.row bytes_row) self.entry
            (λ new. AsksNextInRecord R.seen self.entry.now result new)) }
    {
        if self.advance()? {
            Ok(Some(self.frame()))
        } else {
            Ok(None)
        }
    }

    /// Reads the next frame, and answers whether there is one: `false` is the end of the record.
    /// The frame is then `frame()`. It is `next` in two steps, of which only the second borrows.
    #[inline(always)]
    pub fn advance(&mut self) -> Result<bool, FrameFault>
        ensures { AdvancesInRecord R.seen self.old result self.new }
    {
        match self.state {
            State::Open => {}
            State::Ended => return Ok(false),
            State::Failed(fault) => return Err(fault),
        }
        match read_next(self.source, &mut self.kept, self.form) {
            Ok((form, Some((direction, head)))) => {
                self.form = Some(form);
                self.direction = direction;
                self.head = head;
                Ok(true)
            }
            Ok((form, None)) => {
                self.form = Some(form);
                self.state = State::Ended;
                Ok(false)
            }
            Err(fault) => {
                self.state = State::Failed(fault);
                Err(fault)
            }
        }
    }

    /// The frame that `advance` read last, with its direction. It borrows the reader's own buffer.
    /// Condition: the last call of `advance` answered `true`.
    #[inline(always)]
    pub fn frame(&self) -> (Direction, Frame<'_>)
        requires held { (d : Directed (List ℕ)) × HoldsDirected self.now d }
        ensures { (d : Directed (List ℕ)) → HoldsDirected self.now d → MeansDirected d result }
    {
        (self.direction, frame_of(self.head, &self.kept))
    }
}

impl<R: Source, B: Drop> Drop for RecordReader<'_, R, B> {
    fn drop(self)
        ensures { self.exit.0.now ≡ self.entry.source.now }
    {
        let RecordReader {
            source: _,
            state: _,
            form: _,
            direction: _,
            head: _,
            kept: _,
        } = self;
    }
}
