//! The seeding of a session: its files one after the other.
ghost use Rattle.seeding.specs.Seeding.{Seeds, SeedsAs, SeedsFiles, seed_line_as, shelf_and_session};

use crate::job::{SeedJob, SeedScratch};
use benc::Sink;
use folders::{Pace, Shelf, Unhurried};
use lines::{LineSink, OutFault as SeedFault};
use passes::{CutsWanted, HeldFiles, pass};
use pieces::{PieceBuffer, PieceLength};
use session::{NodeMap, Session};
use std::alloc::Global;

/// Fills in the leaves of each file of the session's torrent that the shelf holds whole, and writes
/// a line for each file, in order: `seeded PATH`, or `not seeded PATH` for a file that is empty,
/// missing, unreadable, of another length or another root, or whose leaves differ from what is
/// known. At last it flushes once. Nothing is marked.
///
/// Each file that is not empty is opened once, read once, to its end and no further if it is whole
/// and else one byte past its stated length at most, and handed back; the shelf's count of failures
/// grows by one for each that was unreadable. Small files that come next, of eight blocks at most,
/// are read one after the other before the first of them is seeded from. Memory for that is taken
/// first; where it is refused, each file is read alone.
///
/// # Errors
///
/// After a fault the files before it stay filled, and their lines were written: `NoMemory` if
/// memory for the leaves of a file was refused, which has its stated length and root and is not
/// filled, and `Write` if the report failed, in the line of a file that may be filled, or at the
/// flush. The small files that are read together with that file were read too; no later one was,
/// and the session has nothing of them.
pub fn seed<N: NodeMap, S: Shelf, W: Sink>(
    alloc: Global,
    session: &mut Session<'_, N>,
    shelf: &mut S,
    report: &mut W,
) -> Result<(), SeedFault>
    ensures { Seeds S.Shelf S.File.seen
        (shelf_and_session shelf.old session.old) (shelf_and_session shelf.new session.new)
        (W.seen report.old) (W.seen report.new) result }
{
    seed_onto(alloc, session, shelf, &mut Unhurried, report)
}

/// Does what `seed` does, onto anything that takes lines, spelled as it spells them: as texts or as
/// JSON objects. Fewer files are read together if the pace says that the lines that wait are due.
/// What is said does not depend on it.
///
/// # Errors
///
/// As for `seed`.
pub fn seed_onto<N: NodeMap, S: Shelf, P: Pace, L: LineSink>(
    alloc: Global,
    session: &mut Session<'_, N>,
    shelf: &mut S,
    pace: &mut P,
    report: &mut L,
) -> Result<(), SeedFault>
    ensures { SeedsAs S.Shelf S.File.seen (seed_line_as L.spelled)
        (shelf_and_session shelf.old session.old) (shelf_and_session shelf.new session.new)
        (L.seen report.old) (L.seen report.new) result }
{
    seed_files(alloc, session, shelf, pace, report)?;
    report.finish()?;
    Ok(())
}

// Seeds from each file in turn, and says its line.
// It has what is held in its frame, so it is not inlined.
#[inline(never)]
fn seed_files<N: NodeMap, S: Shelf, P: Pace, L: LineSink>(
    alloc: Global,
    session: &mut Session<'_, N>,
    shelf: &mut S,
    pace: &mut P,
    report: &mut L,
) -> Result<(), SeedFault>
    ensures { SeedsFiles S.Shelf S.File.seen (seed_line_as L.spelled)
        (shelf_and_session shelf.old session.old) (shelf_and_session shelf.new session.new)
        (L.seen report.old) (L.seen report.new) result }
{
    let torrent = session.torrent();
    let mut scratch = SeedScratch {
        buffer: PieceBuffer::of_blocks(alloc),
        pace,
    };
    let least = PieceLength::new(16_384).unwrap();
    let mut held = HeldFiles::new(alloc, torrent.files().len(), least, CutsWanted::Nothing);
    let job = SeedJob { alloc, torrent };
    match pass(shelf, &job, &mut scratch, &mut held, session, report) {
        Ok(()) => Ok(()),
        Err(stopped) => Err(stopped.stop),
    }
}
