//! The reading of one opened file.
ghost use Rattle.std.specs.Prelude.{◌<◌, ◌≤◌, ◌^◌, length, take};
ghost use Rattle.benc.specs.Device.{SourceSeen};
ghost use Rattle.folders.specs.TakeAll.{CountsReading};
ghost use Rattle.wire.specs.Reading.{Gave};
ghost use Rattle.gathering.specs.Reading.{FindsWholeContent, ReadsFile};

use crate::hashing::{FileHashes, Hashing};
use crate::kind::TorrentKind;
use benc::Source;
use folders::{Consumer, ReadFault, take_all};
use hashtree::{MAX_LENGTH, NoMemory};
use std::alloc::Global;

/// Hashes a file whose first bytes, this many, stand in the buffer; the others are read through it.
/// The file is expected to have this length, if one is known.
pub(crate) fn hash_long<F: Source>(
    alloc: Global,
    source: &mut F,
    kind: &TorrentKind,
    expected: Option<u64>,
    first: usize,
    buffer: &mut [u8],
) -> Result<Option<FileHashes>, ReadFault>
    requires some { 0 < first }
    requires inside { first ≤ length buffer.old }
    requires short { first ≤ 2 ^ 46 }
    ensures read { (before : SourceSeen) → Gave before (F.seen source.old) (take first buffer.old)
        → ReadsFile kind.now.piece_length kind.now.hybrid before (F.seen source.new) result }
    ensures counts { CountsReading (F.seen source.old).faults (F.seen source.new).faults result }
{
    let mut hashing = Hashing::new(alloc, kind, expected);
    hashing.take(&buffer[..first]);
    match take_all(source, MAX_LENGTH - first as u64, buffer, &mut hashing)? {
        None => Ok(None),
        Some(_) => Ok(Some(hashing.finish(alloc)?)),
    }
}

/// Hashes the bytes of a whole file.
pub(crate) fn hash_bytes(
    alloc: Global,
    kind: &TorrentKind,
    bytes: &[u8],
) -> Result<FileHashes, NoMemory>
    requires { length bytes.now ≤ 2 ^ 46 }
    ensures { FindsWholeContent kind.now.piece_length kind.now.hybrid bytes.now result }
{
    if bytes.is_empty() {
        return Ok(FileHashes::empty(alloc));
    }
    let mut hashing = Hashing::new(alloc, kind, Some(bytes.len() as u64));
    hashing.take(bytes);
    hashing.finish(alloc)
}
