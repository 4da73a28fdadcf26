//! What is done in a pass that checks the files of a torrent, where no more than lines are told.
ghost use Rattle.std.specs.Vec.{vec_capacity};
ghost use Rattle.opening.specs.Description.{FileEntry};

use crate::judging::{judge_held, read_or_hold, verdicts_of};
use crate::telling::Telling;
use crate::verdicts::{Verdicts, worse_v1};
use benc::DeviceFault;
use folders::{FileVerdict, Pace, Shelf, V1Verdict};
use lines::LineSink;
use opening::Torrent;
use passes::{HeldFiles, Job, Nothing};
use pieces::PieceBuffer;
use std::alloc::Global;

/// Checks the files of this torrent, and says what is wanted of each.
#[derive(Drop)]
pub(crate) struct CheckJob<'a, 't> {
    pub(crate) alloc: Global,
    pub(crate) torrent: &'a Torrent<'t>,
    pub(crate) telling: Telling,
}

/// What a check writes to as it works.
#[derive(Drop)]
pub(crate) struct CheckScratch<'p, P> {
    pub(crate) buffer: PieceBuffer,
    pub(crate) pace: &'p mut P,
}

/// The verdicts so far.
#[derive(Drop)]
pub(crate) struct Checked {
    /// On the files, with room for all.
    pub(crate) files: Vec<FileVerdict>,
    /// On the version 1 pieces.
    pub(crate) v1: V1Verdict,
}

impl<'a, 't, 'p, S: Shelf, P: Pace, L: LineSink> Job<S, CheckScratch<'p, P>, Checked, L>
    for CheckJob<'a, 't> {
    ghost use Rattle.parts.specs.Passing.{CheckState, check_task};
    ghost use Rattle.parts.specs.Telling.{NeedsBits};

    type Found = Verdicts;

    type Stop = DeviceFault;

    ghost Item = { FileEntry };

    ghost State = { CheckState };

    ghost state = { λ checked out. record {
      files = checked.files.items;
      room = vec_capacity checked.files;
      v1 = checked.v1;
      out = L.seen out;
    } };

    ghost fits = { λ j _. NeedsBits j.telling → ⊥ };

    ghost task = { λ j. check_task L.spelled j.torrent.now j.telling };

    fn len(&self) -> usize {
        self.torrent.files().len()
    }

    fn open(
        &self,
        _scratch: &mut CheckScratch<'p, P>,
        shelf: &mut S,
        number: usize,
    ) -> Option<Result<Option<S::File>, DeviceFault>> {
        Some(shelf.open(&self.torrent.files()[number].path.parts()))
    }

    fn read(
        &self,
        scratch: &mut CheckScratch<'p, P>,
        number: usize,
        file: &mut S::File,
        held: &mut HeldFiles,
    ) -> Result<Option<Verdicts>, DeviceFault> {
        let entry = &self.torrent.files()[number];
        let buffer = scratch.buffer.as_mut_slice();
        read_or_hold(self.alloc, self.torrent, entry, file, held, buffer)
    }

    fn found(
        &self,
        scratch: &mut CheckScratch<'p, P>,
        number: usize,
        held: &HeldFiles,
        place: usize,
    ) -> Verdicts {
        match held.nothing(place) {
            None => {
                let entry = &self.torrent.files()[number];
                let buffer = scratch.buffer.as_mut_slice();
                judge_held(self.alloc, self.torrent, entry, held, place, buffer)
            }
            Some(nothing) => verdicts_of(nothing),
        }
    }

    fn take(
        &self,
        _scratch: &mut CheckScratch<'p, P>,
        number: usize,
        found: Verdicts,
        checked: &mut Checked,
        out: &mut L,
    ) -> Result<(), DeviceFault> {
        let file = &self.torrent.files()[number];
        checked.files.push_reserved(found.file);
        checked.v1 = worse_v1(checked.v1, found.v1);
        self.telling.tell(self.torrent, file, found.file, &[], out)
    }

    fn may_wait(&self, scratch: &mut CheckScratch<'p, P>, number: usize, held: &HeldFiles) -> bool {
        if held.len() > 0 {
            scratch.pace.wait();
        }
        !scratch.pace.is_due() && held.has_room(self.torrent.files()[number].length)
    }

    // No path ends the pass at once.
    fn stop_at(&self, _number: usize, _nothing: Nothing) -> Option<DeviceFault> {
        None
    }
}
