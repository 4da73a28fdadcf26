//! `replay --pieces`: blocks are held until their piece is whole.
use benc::{FromRead, FromWrite};
use commands::answer_sink::AnswerSink;
use commands::piece_replays::{replay_pieces, replay_pieces_and_answer};
use holdings::Holdings;
use lines::LineSink;
use printing::Fault;
use real_files::{Noted, System};
use session::{Paged, Session};
use std::fs::File;

// This many blocks are held at most, unless one piece has more.
const MOST_HELD: usize = 1 << 20;

/// A record that is opened, and the file of its answers with its path, if they are wanted.
#[derive(Drop)]
pub(crate) struct OpenRecord<'a> {
    pub(crate) file: File,
    /// The zeros behind the end of a file are cut away.
    pub(crate) padded: bool,
    pub(crate) answers: Option<(&'a str, File)>,
}

/// Replays the record, holds what cannot be proved yet, and writes the answers to their file, if
/// they are wanted. The longest piece has this many blocks. Gives the exit status. Memory for all
/// that may be held is asked for before the record is read.
pub(crate) fn hold_onto<'a, L: LineSink>(
    system: &System,
    session: &mut Session<'_, Paged>,
    longest: u64,
    record: OpenRecord<'a>,
    out: &mut L,
) -> Result<u8, Fault<'a>> {
    let alloc = system.alloc();
    let longest = usize::try_from(longest).unwrap_or(usize::MAX);
    let mut held = Holdings::new(alloc, MOST_HELD, longest)?;
    let mut source = FromRead::new(Noted::new(record.file, system));
    let cuts = record.padded;
    match record.answers {
        None => replay_pieces(alloc, session, &mut held, &mut source, out, cuts),
        Some((path, file)) => {
            let sink = FromWrite::new(Noted::new(file, system));
            let mut answers = AnswerSink { path, sink };
            replay_pieces_and_answer(
                alloc,
                session,
                &mut held,
                &mut source,
                out,
                cuts,
                &mut answers,
            )
        }
    }
}
