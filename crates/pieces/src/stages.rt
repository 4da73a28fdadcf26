//! Large pieces that are hashed side by side as they come (BEP 3, "pieces").
//!
//! A piece is cut into as many stretches as there are lanes. A step takes a stretch of each of the
//! last pieces: stretch 0 of the newest in lane 0, stretch 1 of the one before it in lane 1, and so
//! on. So the bytes come in their order, and a stretch waits as many steps as its number says:
//!
//! ```text
//! step     0    1    2    3   ..   7    8
//! lane 0  0.0  1.0  2.0  3.0      7.0  8.0    piece.stretch
//! lane 1       0.1  1.1  2.1      6.1  7.1
//! lane 2            0.2  1.2      5.2  6.2
//! ..
//! lane 7                          0.7  1.7    its digest is known after the step
//! ```

ghost use Rattle.std.specs.Prelude.{◌≡◌, ℕ, ◌+◌, ◌-◌, ◌*◌, ◌^◌, ◌<◌, ◌≤◌, [], List, IfSome, drop, length, take};
ghost use Rattle.lanes.specs.declared.words.TheConstants.{LANES};

use crate::buffer::fits_in_lanes;
use crate::cutter::Cutter;
use crate::next_cuts::NextCuts;
use crate::slots::slot_of;
use crate::store::Store;
use lanes::LANES;
use sha1_lanes::Relay;
use std::alloc::Global;

// The fewest whole pieces that are worth stages. With fewer, most lanes are empty.
const LEAST_PIECES: u64 = 4;

/// The pieces that are hashed side by side, and what waits for its step.
#[derive(Drop)]
pub(crate) struct Stages {
    store: Store,
    relay: Relay,
    // The running stretch, which is never whole: its piece, its number in the piece, and how many
    // of its bytes came.
    piece: u64,
    stretch: usize,
    filled: usize,
    ghost in_piece: { stretch < LANES },
    ghost in_stretch: { filled < store.size },
}

impl Stages {
    ghost use Rattle.pieces.specs.Cutting.{IsCutting};
    ghost use Rattle.pieces.specs.Staged.{AreBegun, ClosesStretch, CountsTold, DoesStep, IsDigestOf, IsDraining, IsLargeStream, IsPassing, IsStaged, TakesStretch, bytes_staged, steps_made, told_before};
    ghost use Rattle.pieces.specs.NextCuts.{KnowsCuts};
    ghost use Rattle.pieces.specs.Running.{told};
    ghost use Rattle.pieces.specs.Stored.{slot_bytes};

    /// Stages for a stream of this length, if it is worth them: it has at least four whole pieces,
    /// and a piece for each lane has more than 32 MiB, which no buffer holds.
    pub(crate) fn of_stream(alloc: Global, total: u64, piece_length: u64) -> Option<Stages>
        requires { 0 < piece_length }
        ensures begun { AreBegun result piece_length }
        ensures worth { IfSome result (λ _. IsLargeStream total piece_length) }
    {
        if total / piece_length < LEAST_PIECES || fits_in_lanes(piece_length) {
            return None;
        }
        Stages::of(alloc, piece_length)
    }

    /// Stages to which nothing came: `None` if the piece length is no multiple of 64 bytes for each
    /// lane, if the store would have more than 64 MiB, or if memory for it is refused.
    pub(crate) fn of(alloc: Global, piece_length: u64) -> Option<Stages>
        ensures none { IfSome result (λ s. bytes_staged s ≡ 0) }
        ensures content { IfSome result (λ s. IsStaged s piece_length []) }
    {
        let size = piece_length / LANES as u64;
        if size == 0 || piece_length % (64 * LANES as u64) != 0 {
            return None;
        }
        let store = Store::of(alloc, size as usize)?;
        Some(Stages {
            store,
            relay: Relay::new(),
            piece: 0,
            stretch: 0,
            filled: 0,
        })
    }

    // How many steps were made.
    fn steps(&self) -> u64
        requires fits { self.now.piece + 1 < 2 ^ 64 }
        ensures { result ≡ steps_made self.now }
    {
        self.piece + self.stretch.min(1) as u64
    }

    /// Takes the first of these bytes, at most up to the end of a stretch: how many. With it comes
    /// the digest of the next piece whose digest was not told yet, if it is known now.
    pub(crate) fn take(&mut self, bytes: &[u8]) -> (usize, Option<[u8; 20]>)
        requires some { 0 < length bytes.now }
        requires fits { self.old.piece + 1 < 2 ^ 64 }
        ensures some { 0 < result.0 }
        ensures bound { result.0 ≤ length bytes.now }
        ensures takes { TakesStretch self.old (take result.0 bytes.now) result.1 self.new }
    {
        let room = self.store.size() - self.filled;
        let taken = room.min(bytes.len());
        let slot = slot_of(self.piece, self.stretch);
        self.store.put(slot, self.filled, &bytes[..taken]);
        if taken < room {
            self.filled += taken;
            return (taken, None);
        }
        (taken, self.close())
    }

    /// Passes the whole pieces on to their end: the digests of those whose digests were not told
    /// yet. A cutter is given what came of the piece that is not whole. Condition: the cutter is
    /// empty.
    pub(crate) fn settle(mut self, cutter: &mut Cutter) -> NextCuts
        requires fits { self.piece + 9 < 2 ^ 64 }
        requires empty { cutter.old.filled ≡ 0 }
        ensures count { result.left + told self ≡ self.piece }
        ensures piece_length { cutter.new.piece_length ≡ cutter.old.piece_length }
        ensures filled { cutter.new.filled ≤ self.store.size * self.stretch + self.filled }
        ensures known { (piece_length : ℕ) (content : List ℕ) → IsStaged self piece_length content
            → KnowsCuts result piece_length (drop (piece_length * told self) content) }
        ensures running { (piece_length : ℕ) (content : List ℕ)
            → IsStaged self piece_length content
            → cutter.old.piece_length ≡ piece_length → IsCutting cutter.old []
            → IsCutting cutter.new (drop (piece_length * self.piece) content) }
    {
        let first = self.steps();
        let told = first.saturating_sub(LANES as u64 - 1);
        let mut digests = [[0; 20]; LANES];
        'steps: for step in first..self.last_step() {
            let digest = self.drain(step).unwrap_or([0; 20]);
            digests[(step + 1 - self.piece) as usize] = digest;
        }
        self.give_rest(cutter);
        NextCuts::of(digests, (self.piece - told) as usize)
    }

    // The first step before which the digests of all whole pieces are told.
    fn last_step(&self) -> u64
        requires { self.now.piece + LANES < 2 ^ 64 }
        ensures told { told_before result ≡ self.now.piece }
        ensures least { (step : ℕ) → step < result → told_before step < self.now.piece }
    {
        if self.piece == 0 {
            return 0;
        }
        self.piece + (LANES as u64 - 1)
    }

    // Makes this step, after those before it, with no new piece: the digest of the next piece
    // whose digest was not told yet, if it is known now.
    fn drain(&mut self, step: u64) -> Option<[u8; 20]>
        requires fits { step + 1 < 2 ^ 64 }
        ensures store { self.new.store ≡ self.old.store }
        ensures piece { self.new.piece ≡ self.old.piece }
        ensures stretch { self.new.stretch ≡ self.old.stretch }
        ensures filled { self.new.filled ≡ self.old.filled }
        ensures counts { CountsTold result (told_before step) (told_before (step + 1)) }
        ensures content { (piece_length : ℕ) (content : List ℕ)
            → IsDraining self.old step piece_length content
            → IsDraining self.new (step + 1) piece_length content }
        ensures digest { (piece_length : ℕ) (content : List ℕ)
            → IsDraining self.old step piece_length content → told_before step < self.old.piece
            → IsDigestOf result piece_length content (told_before step) }
    {
        self.step(step)
    }

    // Gives a cutter what came of the piece that is not whole. Condition: the cutter is empty. The
    // stages stay as they are.
    fn give_rest(&self, cutter: &mut Cutter)
        requires empty { cutter.old.filled ≡ 0 }
        ensures piece_length { cutter.new.piece_length ≡ cutter.old.piece_length }
        ensures filled { cutter.new.filled
            ≤ self.now.store.size * self.now.stretch + self.now.filled }
        ensures running { (step piece_length : ℕ) (content : List ℕ)
            → IsDraining self.now step piece_length content
            → cutter.old.piece_length ≡ piece_length → IsCutting cutter.old []
            → IsCutting cutter.new (drop (piece_length * self.now.piece) content) }
    {
        let size = self.store.size();
        'stretches: for stretch in 0..self.stretch {
            cutter.take(self.store.front(slot_of(self.piece, stretch), size));
        }
        cutter.take(
            self.store
                .front(slot_of(self.piece, self.stretch), self.filled),
        );
    }

    // Closes the running stretch, which is whole, and begins the next.
    fn close(&mut self) -> Option<[u8; 20]>
        requires fits { self.old.piece + 1 < 2 ^ 64 }
        ensures { ClosesStretch self.old result self.new }
    {
        let digest = self.step_if_due();
        self.begin_next();
        digest
    }

    // Makes the step of the running piece, if its stretch 0 is the running one.
    fn step_if_due(&mut self) -> Option<[u8; 20]>
        requires fits { self.old.piece + 1 < 2 ^ 64 }
        ensures store { self.new.store ≡ self.old.store }
        ensures piece { self.new.piece ≡ self.old.piece }
        ensures stretch { self.new.stretch ≡ self.old.stretch }
        ensures does { DoesStep self.old result self.new }
    {
        if self.stretch > 0 {
            return None;
        }
        self.step(self.piece)
    }

    // Makes this step, after those before it: the digest of the piece that was in the last lane, if
    // there was one.
    fn step(&mut self, step: u64) -> Option<[u8; 20]>
        requires fits { step + 1 < 2 ^ 64 }
        ensures store { self.new.store ≡ self.old.store }
        ensures piece { self.new.piece ≡ self.old.piece }
        ensures stretch { self.new.stretch ≡ self.old.stretch }
        ensures filled { self.new.filled ≡ self.old.filled }
        ensures counts { CountsTold result (told_before step) (told_before (step + 1)) }
        ensures passing { (whole : ℕ) (content : List ℕ)
            → IsPassing self.old.relay (slot_bytes self.old.store) self.old.store.size step whole
            content
            → IsPassing self.new.relay (slot_bytes self.old.store) self.old.store.size (step + 1)
            whole content }
        ensures digest { (whole : ℕ) (content : List ℕ)
            → IsPassing self.old.relay (slot_bytes self.old.store) self.old.store.size step whole
            content → (LANES ≤ step + 1 → LANES * told_before step + LANES ≤ whole)
            → IsDigestOf result (LANES * self.old.store.size) content (told_before step) }
    {
        let digest = self.store.step(&mut self.relay, step);
        if step + 1 < LANES as u64 {
            return None;
        }
        Some(digest)
    }

    // Begins the next stretch.
    fn begin_next(&mut self)
        requires fits { self.old.piece + 1 < 2 ^ 64 }
        ensures store { self.new.store ≡ self.old.store }
        ensures relay { self.new.relay ≡ self.old.relay }
        ensures filled { self.new.filled ≡ 0 }
        ensures next { LANES * self.new.piece + self.new.stretch
            ≡ LANES * self.old.piece + self.old.stretch + 1 }
        ensures steps { steps_made self.new ≡ self.old.piece + 1 }
    {
        self.filled = 0;
        self.stretch += 1;
        if self.stretch == LANES {
            self.stretch = 0;
            self.piece += 1;
        }
    }
}
