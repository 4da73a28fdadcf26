//! The cuts of a stream as its bytes come: each by itself, several side by side, or large ones in
//! stages (BEP 3, "pieces").

ghost use Rattle.std.specs.Prelude.{◌≡◌, ℕ, ◌+◌, ◌-◌, ◌*◌, ◌^◌, ◌<◌, ◌≤◌, [], List, IsSome, None, drop, length, take};
ghost use Rattle.std.specs.Option.{ForSome};
ghost use Rattle.lanes.specs.declared.words.TheConstants.{LANES};
ghost use Rattle.pieces.specs.Pieces.{pieces_of};
ghost use Rattle.pieces.specs.Running.{HoldsSomeContent, told_in};
ghost use Rattle.pieces.specs.Staged.{AreBegun};
ghost use Rattle.pieces.specs.NextCuts.{KnowsCuts, cuts_told};

use crate::cutter::Cutter;
use crate::next_cuts::NextCuts;
use crate::stages::Stages;
use std::alloc::Global;

/// The cuts of a stream, whose digests are told in their order. None of them is kept.
#[derive(Drop)]
pub(crate) struct CutStream {
    // A full cut is closed once a byte comes after it. While there are stages, it is empty.
    cutter: Cutter,
    // Where the cuts are hashed side by side, if there is room for that.
    stages: Option<Stages>,
    ghost alone: { ForSome stages (λ s. cutter.filled ≡ 0) },
    ghost same_length: { ForSome stages (λ s. HoldsSomeContent s cutter.piece_length) },
}

impl CutStream {
    ghost use Rattle.pieces.specs.CutStreams.{IsLastFilled, IsLeft, Runs, TellsCut, TellsLeft, bytes_running, cuts_left, turns};

    /// Cuts of this length, of which nothing came yet. They go through the stages, if there are
    /// some.
    pub(crate) fn new(piece_length: u64, stages: Option<Stages>) -> CutStream
        requires some { 0 < piece_length }
        requires begun { AreBegun stages piece_length }
        ensures piece_length { result.cutter.piece_length ≡ piece_length }
        ensures begins { Runs result piece_length [] }
        ensures none { bytes_running result ≡ 0 }
        ensures told { told_in result.stages ≡ 0 }
        ensures stages { result.stages ≡ stages }
    {
        CutStream {
            cutter: Cutter::new(piece_length),
            stages,
        }
    }

    /// Takes the first of these bytes, at most up to the end of a cut or of a stretch: how many.
    /// With it comes the digest of the next cut, if it is known now. That a cut is full is known
    /// once a byte comes after it, which is not taken yet then.
    pub(crate) fn take(&mut self, next: &mut NextCuts, bytes: &[u8]) -> (usize, Option<[u8; 20]>)
        requires some { 0 < length bytes.now }
        requires fits { told_in self.old.stages + 2 * LANES < 2 ^ 64 }
        requires next { self.old.stages ≡ None
            → KnowsCuts next.old self.old.cutter.piece_length bytes.now }
        ensures bound { result.0 ≤ length bytes.now }
        ensures less { turns self.new (length bytes.now - result.0)
            < turns self.old (length bytes.now) }
        ensures tells { TellsCut self.old (take result.0 bytes.now) result.1 self.new }
        ensures after { IsSome result.1
            → self.old.cutter.piece_length < bytes_running self.old + length bytes.now }
        ensures next { self.new.stages ≡ None
            → KnowsCuts next.new self.new.cutter.piece_length (drop result.0 bytes.now) }
        ensures stages { self.old.stages ≡ None → self.new.stages ≡ None }
    {
        if let Some(stages) = &mut self.stages {
            return stages.take(bytes);
        }
        if self.cutter.is_full() {
            return (0, Some(self.cutter.close()));
        }
        (next.fill(&mut self.cutter, bytes), None)
    }

    /// Takes stages, if nothing runs, there are none yet, and memory for them is given.
    pub(crate) fn begin_stages(&mut self, alloc: Global)
        ensures tells { TellsCut self.old [] None self.new }
        ensures cutter { self.new.cutter ≡ self.old.cutter }
        ensures stages { self.new.stages ≡ None → self.old.stages ≡ None }
    {
        if self.stages.is_none() && self.cutter.is_empty() {
            self.stages = Stages::of(alloc, self.cutter.piece_length());
        }
    }

    /// Ends the stages, if there are some: the digests of the whole cuts that were in them. What
    /// came behind these is the running cut.
    pub(crate) fn settle(&mut self) -> NextCuts
        requires fits { told_in self.old.stages + 2 * LANES < 2 ^ 64 }
        ensures left { (piece_length : ℕ) (running : List ℕ) → Runs self.old piece_length running
            → IsLeft self.new result piece_length running }
        ensures count { cuts_left self.new result
            ≤ pieces_of self.old.cutter.piece_length (bytes_running self.old) }
    {
        let Some(stages) = self.stages.take() else {
            return NextCuts::new();
        };
        stages.settle(&mut self.cutter)
    }

    /// At the end, the digest of the next of the cuts that are left, if there is one: of those
    /// whose digests are known, and then of the running cut.
    pub(crate) fn next_left(&mut self, left: &mut NextCuts) -> Option<[u8; 20]>
        ensures { TellsLeft self.old left.old result self.new left.new }
    {
        if let Some(digest) = left.pop() {
            return Some(digest);
        }
        if self.cutter.is_empty() {
            return None;
        }
        Some(self.cutter.close())
    }

    /// The digest of the running cut filled up with zeros, unless it is empty.
    pub(crate) fn filled_up(&self) -> Option<[u8; 20]>
        ensures { (left : NextCuts) (piece_length : ℕ) (running : List ℕ)
            → IsLeft self.now left piece_length running
            → IsLastFilled piece_length (drop (left.left * piece_length) running) result }
    {
        if self.cutter.is_empty() {
            return None;
        }
        Some(self.cutter.filled_up())
    }
}
