//! Whole cuts that follow one another, hashed side by side (BEP 3, "pieces").

ghost use Rattle.std.specs.Prelude.{◌≡◌, ℕ, ◌+◌, ◌-◌, ◌*◌, ◌%◌, ◌^◌, ◌<◌, ◌≤◌, ◌++◌, [], List, IfSome, None, drop, length, min, slice_index, slice_index_or, take};
ghost use Rattle.sha1.specs.Sha1.{sha1};
ghost use Rattle.lanes.specs.declared.words.TheConstants.{LANES};

use crate::cutter::Cutter;
use lanes::LANES;
use sha1_lanes::Batch;

/// The digests of the whole cuts that come next, as far as they were hashed side by side.
#[derive(Drop)]
pub(crate) struct NextCuts {
    digests: [[u8; 20]; LANES],
    left: usize,
    ghost within: { left ≤ LANES },
}

impl NextCuts {
    ghost use Rattle.pieces.specs.Cutting.{IsCutting};
    ghost use Rattle.pieces.specs.NextCuts.{KnowsCuts, cuts_told};

    /// No cut that comes next was hashed yet.
    pub(crate) fn new() -> NextCuts
        ensures none { result.left ≡ 0 }
        ensures knows { (size : ℕ) (bytes : List ℕ) → KnowsCuts result size bytes }
    {
        NextCuts::of([[0; 20]; LANES], 0)
    }

    /// The next cuts, of which this many have these digests, in the last lanes.
    pub(crate) fn of(digests: [[u8; 20]; LANES], left: usize) -> NextCuts
        requires few { left ≤ LANES }
        ensures digests { result.digests ≡ digests }
        ensures left { result.left ≡ left }
    {
        NextCuts { digests, left }
    }

    /// The digest of the first of the next cuts, if one was hashed. It is left out then.
    pub(crate) fn pop(&mut self) -> Option<[u8; 20]>
        ensures count { self.new.left + cuts_told result ≡ self.old.left }
        ensures all { result ≡ None → self.old.left ≡ 0 }
        ensures first { (size : ℕ) (bytes : List ℕ) → KnowsCuts self.old size bytes
            → IfSome result (λ d. (size ≤ length bytes) × (d ≡ sha1 (take size bytes))) }
        ensures next { (size : ℕ) (bytes : List ℕ) → KnowsCuts self.old size bytes
            → IfSome result (λ _. KnowsCuts self.new size (drop size bytes)) }
    {
        if self.left == 0 {
            return None;
        }
        let digest = self.digests[LANES - self.left];
        self.left -= 1;
        Some(digest)
    }

    /// Gives the running cut the first of these bytes, as many as it has room for: how many. Whole
    /// cuts that follow one another are hashed side by side, and then given one by one.
    pub(crate) fn fill(&mut self, cutter: &mut Cutter, bytes: &[u8]) -> usize
        requires { KnowsCuts self.old cutter.old.piece_length bytes.now }
        ensures taken { result
            ≡ min (cutter.old.piece_length - cutter.old.filled) (length bytes.now) }
        ensures piece_length { cutter.new.piece_length ≡ cutter.old.piece_length }
        ensures filled { cutter.new.filled ≡ cutter.old.filled + result }
        ensures running { (running : List ℕ) → IsCutting cutter.old running
            → IsCutting cutter.new (running ++ take result bytes.now) }
        ensures next { KnowsCuts self.new cutter.old.piece_length (drop result bytes.now) }
    {
        let size = cutter.piece_length();
        self.look_ahead(cutter, bytes);
        let Some(digest) = self.pop() else {
            return cutter.take(bytes);
        };
        cutter.take_known(&digest, &bytes[..size as usize]);
        size as usize
    }

    // Hashes the whole cuts that come next, if none is hashed yet and there are several. Forgets
    // them if the running cut is not empty.
    fn look_ahead(&mut self, cutter: &Cutter, bytes: &[u8])
        requires { KnowsCuts self.old cutter.now.piece_length bytes.now }
        ensures known { KnowsCuts self.new cutter.now.piece_length bytes.now }
        ensures empty { 0 < self.new.left → cutter.now.filled ≡ 0 }
    {
        if !cutter.is_empty() {
            self.left = 0;
        } else if self.left == 0 {
            self.hash_next(cutter.piece_length(), bytes);
        }
    }

    // Hashes the whole cuts at the front of these bytes, if there are several: at most one in each
    // lane.
    fn hash_next(&mut self, size: u64, bytes: &[u8])
        requires some { 0 < size }
        requires none { self.old.left ≡ 0 }
        ensures { KnowsCuts self.new size bytes.now }
    {
        let count = (bytes.len() as u64 / size).min(LANES as u64);
        if count > 1 && size % 64 == 0 {
            self.digests = digests_of(bytes, size as usize, count as usize);
            self.left = count as usize;
        }
    }
}

// The digests of this many cuts of this size at the front of the bytes, in the last lanes.
fn digests_of(bytes: &[u8], size: usize, count: usize) -> [[u8; 20]; LANES]
    requires some { 0 < count }
    requires few { count ≤ LANES }
    requires whole_blocks { size % 64 ≡ 0 }
    requires inside { count * size ≤ length bytes.now }
    ensures { (i : ℕ) → i < count → slice_index_or result (LANES - count + i) []
        ≡ sha1 (take size (drop (i * size) bytes.now)) }
{
    let starts = starts_of(size, count);
    let mut batch = Batch::new();
    batch.update(bytes, &starts, &[size; LANES], size);
    batch.finish()
}

// Where these cuts begin: the first of them in each lane that is left over.
fn starts_of(size: usize, count: usize) -> [usize; LANES]
    requires some { 0 < count }
    requires few { count ≤ LANES }
    requires fits { count * size < 2 ^ 64 }
    ensures starts { (i : ℕ) → i < count → slice_index result (LANES - count + i) ≡ i * size }
    ensures inside { (j : ℕ) → j < LANES → slice_index result j + size ≤ count * size }
{
    let mut starts = [0; LANES];
    'cuts: for i in 0..count {
        starts[LANES - count + i] = i * size;
    }
    starts
}
