//! Torrent files.
ghost use Rattle.std.specs.Prelude.{◌≢◌, IfErr};

use crate::file_bytes::read_bytes;
use filetree::Refusal;
use opening::{MAX_TORRENT, Torrent};
use printing::Fault;
use real_files::System;

// One byte more than a torrent may have: a longer one is refused by its length, whatever follows.
const READ_AT_MOST: u64 = MAX_TORRENT as u64 + 1;

/// The bytes of a torrent file, or the first of them if they are too many.
pub(crate) fn read_torrent<'a>(system: &System, path: &'a str) -> Result<Vec<u8>, Fault<'a>> {
    read_bytes(system, path, READ_AT_MOST)
}

/// The torrent that these bytes are. Nothing is written, so no refusal is that of a sink.
pub(crate) fn open_torrent<'t>(system: &System, bytes: &'t [u8]) -> Result<Torrent<'t>, Refusal>
    ensures { IfErr result (λ r. r ≢ Refusal.Write) }
{
    Torrent::open(system.alloc(), bytes)
}
