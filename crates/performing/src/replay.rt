//! `replay`: which messages of a record are right.
use crate::folder_hints::hint_at_folder;
use crate::holding::{OpenRecord, hold_onto};
use crate::printed::{refuse, say_to};
use crate::refused_counts::RefusedCounts;
use crate::replay_summary::print_replayed;
use crate::sizes::all_bytes;
use crate::torrent_file::{open_torrent, read_torrent};
use crate::watched::Watched;
use actions::Replay;
use benc::{FromRead, FromWrite};
use commands::answer_sink::AnswerSink;
use commands::outcomes;
use lines::LineSink;
use opening::Torrent;
use printing::Fault;
use real_files::{
    Cause, Folder, Noted, Progress, StandardOutput, System, TerminalPace, create_output,
};
use session::{Paged, Session};
use std::fs::File;
use std::io::IsTerminal;

// How many bytes a block has.
const BLOCK: u64 = 16_384;

/// Replays the messages that peers sent. The torrent is read, and a refusal is printed, before the
/// record is opened. Gives the exit status.
pub(crate) fn perform_replay<'a>(system: &System, asked: &Replay<'a>) -> Result<u8, Fault<'a>> {
    let bytes = read_torrent(system, asked.torrent)?;
    let out = StandardOutput::unbuffered(system);
    match open_torrent(system, bytes.as_slice()) {
        Ok(torrent) => {
            let progress = Progress::new(system.rt(), Some(all_bytes(&torrent)));
            let counts = RefusedCounts::none();
            say_to!(asked.json, out.below(&progress), lines => {
                replay_file(system, &torrent, asked, &progress, &mut Watched::new(lines, counts))
            })
        }
        Err(refusal) => refuse(system, bytes.as_slice(), &refusal, asked.json, out),
    }
}

// The record is opened before the file of the answers, which is not touched if it fails. After that
// the session is filled from the folder.
fn replay_file<'a, L: LineSink>(
    system: &System,
    torrent: &Torrent<'_>,
    asked: &Replay<'a>,
    progress: &Progress,
    out: &mut Watched<L, RefusedCounts>,
) -> Result<u8, Fault<'a>> {
    let file = system.open(asked.record)?;
    let answers = answers_file(system, torrent, asked, progress)?;
    let mut session = outcomes::new_session(system.alloc(), torrent, asked.info_only)?;
    seed(system, torrent, asked, progress, &mut session)?;
    let record = OpenRecord {
        file,
        padded: asked.padded,
        answers,
    };
    let status = judge(system, torrent, asked, &mut session, record, out)?;
    if asked.summary {
        progress.clear();
        print_replayed(system, &session, *out.watch())?;
    }
    Ok(status)
}

// Replays the record, and holds what cannot be proved yet if that is asked for.
fn judge<'a, L: LineSink>(
    system: &System,
    torrent: &Torrent<'_>,
    asked: &Replay<'a>,
    session: &mut Session<'_, Paged>,
    record: OpenRecord<'a>,
    out: &mut L,
) -> Result<u8, Fault<'a>> {
    if asked.pieces {
        let longest = torrent.piece_length() / BLOCK;
        return hold_onto(system, session, longest, record, out);
    }
    replay_onto(system, session, record, out)
}

// Fills the session from the folder, if there is one, and tells on standard error if another one
// may be meant.
fn seed<'a>(
    system: &System,
    torrent: &Torrent<'_>,
    asked: &Replay<'a>,
    progress: &Progress,
    session: &mut Session<'_, Paged>,
) -> Result<(), Fault<'a>> {
    let Some(dir) = asked.seed else {
        return Ok(());
    };
    let mut folder = Folder::with_torrent(system, dir, torrent, progress);
    seed_from(system, &mut folder, asked.json, progress, session)?;
    progress.clear();
    hint_at_folder(system, torrent, dir, &["try --seed"]);
    Ok(())
}

// Fills the session from this folder. Its lines go out by full buffers, all of them before the
// record is read; on a terminal line by line, at its pace.
fn seed_from<'a>(
    system: &System,
    folder: &mut Folder<'_>,
    json: bool,
    progress: &Progress,
    session: &mut Session<'_, Paged>,
) -> Result<(), Fault<'a>> {
    let mut pace = TerminalPace::new(system);
    let out = output_of_seeds(system).below(progress);
    say_to!(json, out, lines => {
        outcomes::seed(system.alloc(), session, folder, &mut pace, &mut lines)
    })
}

// Standard output with a buffer, unless it is a terminal or memory is refused.
fn output_of_seeds<'s>(system: &'s System) -> StandardOutput<'s> {
    if !system.rt().stdout().is_terminal() {
        if let Ok(buffered) = StandardOutput::buffered(system) {
            return buffered;
        }
    }
    StandardOutput::unbuffered(system)
}

// Replays the record, and writes the answers to their file, if they are wanted.
fn replay_onto<'a, L: LineSink>(
    system: &System,
    session: &mut Session<'_, Paged>,
    record: OpenRecord<'a>,
    out: &mut L,
) -> Result<u8, Fault<'a>> {
    let (alloc, cuts) = (system.alloc(), record.padded);
    let mut source = FromRead::new(Noted::new(record.file, system));
    match record.answers {
        None => outcomes::replay(alloc, session, &mut source, out, cuts),
        Some((path, file)) => {
            let sink = FromWrite::new(Noted::new(file, system));
            let mut answers = AnswerSink { path, sink };
            outcomes::replay_and_answer(alloc, session, &mut source, out, cuts, &mut answers)
        }
    }
}

// The file that takes the answers, emptied, if they are wanted. It is no file that is read.
fn answers_file<'a>(
    system: &System,
    torrent: &Torrent<'_>,
    asked: &Replay<'a>,
    progress: &Progress,
) -> Result<Option<(&'a str, File)>, Fault<'a>> {
    let Some(path) = asked.answers else {
        return Ok(None);
    };
    if is_seed(system, torrent, asked, progress, path)? {
        system.note(Cause::IsInput);
        return Err(Fault::Write(path));
    }
    let file = create_output(system, path, &[asked.torrent, asked.record])?;
    Ok(Some((path, file)))
}

// Whether this path is that of a file of the torrent below the folder that fills the session.
fn is_seed<'a>(
    system: &System,
    torrent: &Torrent<'_>,
    asked: &Replay<'a>,
    progress: &Progress,
    path: &str,
) -> Result<bool, Fault<'a>> {
    match asked.seed {
        None => Ok(false),
        Some(dir) => Ok(Folder::new(system, dir, progress).holds(torrent, path)?),
    }
}
