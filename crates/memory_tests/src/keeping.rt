//! The messages of a record, kept so that all can be given at once.
use crate::again::name_refused;
use benc::Source;
use benc::memory::MemSource;
use std::alloc::{AllocError, Global};
use std::io;
use wire::{Ask, Direction, Frame, Hash, Message, RecordReader};

/// A message, and whether it came in or went out.
pub(crate) type Directed<'m> = (Direction, Message<'m>);

/// A message that owns what it carries.
#[derive(Drop)]
pub(crate) enum Kept {
    Piece {
        index: u32,
        begin: u32,
        block: Vec<u8>,
    },
    Request(Ask),
    Hashes {
        ask: Ask,
        hashes: Vec<Hash>,
    },
    Reject(Ask),
    KeepAlive,
    Other {
        id: u8,
        len: u32,
    },
}

impl Kept {
    fn of(alloc: Global, message: &Message<'_>) -> Result<Kept, AllocError> {
        Ok(match *message {
            Message::Piece {
                index,
                begin,
                block,
            } => Kept::Piece {
                index,
                begin,
                block: Vec::from_slice(alloc, block)?,
            },
            Message::Request(ask) => Kept::Request(ask),
            Message::Hashes { ask, hashes } => Kept::Hashes {
                ask,
                hashes: Vec::from_slice(alloc, hashes)?,
            },
            Message::Reject(ask) => Kept::Reject(ask),
            Message::KeepAlive => Kept::KeepAlive,
            Message::Other { id, len } => Kept::Other { id, len },
        })
    }

    fn lend(&self) -> Message<'_> {
        match self {
            Kept::Piece {
                index,
                begin,
                block,
            } => Message::Piece {
                index: *index,
                begin: *begin,
                block,
            },
            Kept::Request(ask) => Message::Request(*ask),
            Kept::Hashes { ask, hashes } => Message::Hashes { ask: *ask, hashes },
            Kept::Reject(ask) => Message::Reject(*ask),
            Kept::KeepAlive => Message::KeepAlive,
            Kept::Other { id, len } => Message::Other { id: *id, len: *len },
        }
    }
}

/// Keeps the messages of a record, and prints the fault at which it ends, if there is one.
pub(crate) fn keep_messages(rt: &HostRuntime, record: &[u8]) -> io::Result<Vec<(Direction, Kept)>> {
    let mut source = MemSource::new(record);
    keep_record(rt, &mut source)
}

/// The messages that are kept.
pub(crate) fn lend_messages<'k>(
    alloc: Global,
    kept: &'k [(Direction, Kept)],
) -> Result<Vec<Directed<'k>>, AllocError> {
    let mut messages = Vec::with_capacity(alloc, kept.len())?;
    for (direction, message) in kept {
        messages.push((*direction, message.lend()))?;
    }
    Ok(messages)
}

fn keep_record<R: Source>(rt: &HostRuntime, source: &mut R) -> io::Result<Vec<(Direction, Kept)>> {
    let mut reader = RecordReader::new(rt.alloc(), source);
    keep_frames(rt, &mut reader)
}

fn reserve_again<R: Source>(rt: &HostRuntime, reader: &mut RecordReader<'_, R>) -> io::Result<()> {
    if reader.reserve().is_err() {
        name_refused(rt, "reserve")?;
        reader.reserve()?;
    }
    Ok(())
}

fn keep_frames<R: Source>(
    rt: &HostRuntime,
    reader: &mut RecordReader<'_, R>,
) -> io::Result<Vec<(Direction, Kept)>> {
    reserve_again(rt, reader)?;
    let mut kept = Vec::new(rt.alloc());
    for _ in 0..u64::MAX {
        if !keep_next(rt, reader, &mut kept)? {
            break;
        }
    }
    Ok(kept)
}

// Keeps the next frame. Returns whether there is one.
fn keep_next<R: Source>(
    rt: &HostRuntime,
    reader: &mut RecordReader<'_, R>,
    kept: &mut Vec<(Direction, Kept)>,
) -> io::Result<bool> {
    match reader.advance() {
        Ok(true) => keep_frame(rt.alloc(), kept, reader.frame())?,
        Ok(false) => return Ok(false),
        Err(fault) => {
            println!(rt; "{fault}")?;
            return Ok(false);
        }
    }
    Ok(true)
}

fn keep_frame(
    alloc: Global,
    kept: &mut Vec<(Direction, Kept)>,
    (direction, frame): (Direction, Frame<'_>),
) -> Result<(), AllocError> {
    if let Frame::Message(message) = frame {
        kept.push((direction, Kept::of(alloc, &message)?))?;
    }
    Ok(())
}
