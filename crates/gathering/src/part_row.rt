//! The reading of the pieces that a part has of one opened file.
ghost use Rattle.std.specs.Prelude.{◌^◌, ◌<◌, ◌≤◌, length, IfOk, OnErr};
ghost use Rattle.benc.specs.Device.{CountsFault};
ghost use Rattle.folders.specs.TakeAll.{IsReadWithin};
ghost use Rattle.gathering.specs.PartRows.{EndsHere, ReadsCounted};

use crate::hashing::{FileHashes, Hashing};
use crate::kind::TorrentKind;
use benc::{DeviceFault, Source};
use folders::{FileReader, ReadFault, fill, take_exactly};
use std::alloc::Global;

/// What was hashed of a row; `None` if the file is of another length.
pub(crate) type Hashed = Result<Option<FileHashes>, ReadFault>;

/// Reads and hashes a row of pieces of an opened file.
#[derive(Drop)]
pub(crate) struct RowReader<'k> {
    pub(crate) alloc: Global,
    pub(crate) kind: &'k TorrentKind,
    /// How many bytes the row has.
    pub(crate) size: u64,
    /// Whether the file is to end there.
    pub(crate) ends: bool,
}

impl<F: Source> FileReader<F, Hashed> for RowReader<'_> {
    ghost use Rattle.gathering.specs.PartRows.{ReadsCounted};

    ghost may_read = { λ r. r.size ≤ 2 ^ 46 };

    ghost reads = { λ r _. ReadsCounted r.kind.now.piece_length r.kind.now.hybrid r.size r.ends };

    fn read(&mut self, file: &mut F, buffer: &mut [u8]) -> Hashed {
        read_row(self.alloc, file, self.kind, self.size, self.ends, buffer)
    }
}

// Reads and hashes this many bytes, and sees whether the file ends there if it is to. No byte
// behind them is read but one at the end. Conditions: a file may have as many, and the buffer is
// not empty.
fn read_row<F: Source>(
    alloc: Global,
    source: &mut F,
    kind: &TorrentKind,
    size: u64,
    ends: bool,
    buffer: &mut [u8],
) -> Hashed
    requires some { 0 < length buffer.old }
    requires fits { size ≤ 2 ^ 46 }
    ensures { ReadsCounted kind.now.piece_length kind.now.hybrid size ends result
        (F.seen source.old) (F.seen source.new) }
{
    let mut hashing = Hashing::new(alloc, kind, Some(size));
    if !take_exactly(source, size, buffer, &mut hashing)? {
        return Ok(None);
    }
    if !is_over(source, ends, buffer)? {
        return Ok(None);
    }
    if size == 0 {
        return Ok(Some(FileHashes::empty(alloc)));
    }
    Ok(Some(hashing.finish(alloc)?))
}

// Whether the source has no more bytes, if it is to end. A fault comes before one is read.
fn is_over<F: Source>(source: &mut F, ends: bool, buffer: &mut [u8]) -> Result<bool, DeviceFault>
    requires { 0 < length buffer.old }
    ensures over { IfOk result (EndsHere ends (F.seen source.old) (F.seen source.new)) }
    ensures blamed { OnErr result (IsReadWithin 0 (F.seen source.old) (F.seen source.new)) }
    ensures counts { CountsFault (F.seen source.old).faults (F.seen source.new).faults result }
{
    if !ends {
        return Ok(true);
    }
    Ok(fill(source, &mut buffer[..1])? == 0)
}
