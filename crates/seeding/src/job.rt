//! What is done in a pass that seeds a session: the leaves of each file are found and filled in,
//! and its line is said.
ghost use Rattle.benc.specs.Device.{Wrote};
ghost use Rattle.opening.specs.Description.{FileEntry};
ghost use Rattle.opening.specs.Seen.{file_entry};
ghost use Rattle.seeding.specs.Seeding.{seed_line_as};

use crate::finding::{find_held, read_or_hold, tree_of};
use crate::leaves::Found;
use benc::DeviceFault;
use folders::{Pace, Shelf};
use lines::{Line, LineSink, OutFault as SeedFault, say};
use opening::{File, Torrent};
use passes::{HeldFiles, Job, Nothing};
use pieces::PieceBuffer;
use session::{NodeMap, Session};
use std::alloc::Global;

/// Seeds a session of this torrent from its files.
#[derive(Drop)]
pub(crate) struct SeedJob<'t> {
    pub(crate) alloc: Global,
    pub(crate) torrent: &'t Torrent<'t>,
}

/// What seeding writes to as it works.
#[derive(Drop)]
pub(crate) struct SeedScratch<'p, P> {
    pub(crate) buffer: PieceBuffer,
    pub(crate) pace: &'p mut P,
}

impl<'t, 'p, N: NodeMap, S: Shelf, P: Pace, L: LineSink> Job<
    S,
    SeedScratch<'p, P>,
    Session<'t, N>,
    L,
> for SeedJob<'t> {
    ghost use Rattle.std.specs.Prelude.{⊤};
    ghost use Rattle.seeding.specs.Passing.{SeedState, seed_task};

    type Found = Found<N>;

    type Stop = SeedFault;

    ghost Item = { FileEntry };

    ghost State = { SeedState };

    ghost state = { λ session out. (session, L.seen out) };

    ghost fits = { λ _ _. ⊤ };

    ghost task = { λ j. seed_task (seed_line_as L.spelled) j.torrent.now };

    fn len(&self) -> usize {
        self.torrent.files().len()
    }

    fn open(
        &self,
        _scratch: &mut SeedScratch<'p, P>,
        shelf: &mut S,
        number: usize,
    ) -> Option<Result<Option<S::File>, DeviceFault>> {
        let file = &self.torrent.files()[number];
        match file.tree {
            None => None,
            Some(_) => Some(shelf.open(&file.path.parts())),
        }
    }

    fn read(
        &self,
        scratch: &mut SeedScratch<'p, P>,
        number: usize,
        file: &mut S::File,
        held: &mut HeldFiles,
    ) -> Result<Option<Found<N>>, DeviceFault> {
        match tree_of(self.torrent, number) {
            None => Ok(Some(Ok(None))),
            Some(tree) => {
                read_or_hold(self.alloc, tree, file, held, scratch.buffer.as_mut_slice())
            }
        }
    }

    fn found(
        &self,
        _scratch: &mut SeedScratch<'p, P>,
        number: usize,
        held: &HeldFiles,
        place: usize,
    ) -> Found<N> {
        match (held.nothing(place), tree_of(self.torrent, number)) {
            (None, Some(tree)) => find_held(self.alloc, tree, held, place),
            _ => Ok(None),
        }
    }

    fn take(
        &self,
        _scratch: &mut SeedScratch<'p, P>,
        number: usize,
        found: Found<N>,
        session: &mut Session<'t, N>,
        report: &mut L,
    ) -> Result<(), SeedFault> {
        let file = &self.torrent.files()[number];
        let seeded = match found? {
            Some(grown) => session.adopt(file.tree.unwrap(), grown).is_ok(),
            None => false,
        };
        Ok(write_line_of(report, file, seeded)?)
    }

    fn may_wait(&self, scratch: &mut SeedScratch<'p, P>, number: usize, held: &HeldFiles) -> bool {
        if held.len() > 0 {
            scratch.pace.wait();
        }
        !scratch.pace.is_due() && held.has_room(self.torrent.files()[number].length)
    }

    // No path ends the pass at once.
    fn stop_at(&self, _number: usize, _nothing: Nothing) -> Option<SeedFault> {
        None
    }
}

// Says the line of a file.
fn write_line_of<L: LineSink>(out: &mut L, file: &File<'_>, seeded: bool) -> Result<(), DeviceFault>
    ensures { Wrote (L.seen out.old) (L.seen out.new) result
        (seed_line_as L.spelled (file_entry file.now) seeded) }
{
    let path = file.path.parts();
    if seeded {
        say(&Line::Seeded(&path), out)
    } else {
        say(&Line::NotSeeded(&path), out)
    }
}
