//! The cuts of several small files in a buffer.

ghost use Rattle.std.specs.Prelude.{◌≡◌, ℕ, ◌+◌, ◌-◌, ◌*◌, ◌%◌, ◌^◌, ◌<◌, ◌≤◌, ◌↔◌, IfOk, IsTrue, List, OnErr, length, min};
ghost use Rattle.pieces.specs.FileCuts.{IsV1File};
ghost use Rattle.pieces.specs.Pieces.{pieces_of};

use crate::cuts::both::write_both;
use crate::cuts::together::write_digests;
use hashtree::NoMemory;
use pieces::V1File;
use std::alloc::Global;

// How many cuts a window has at most.
const WINDOW: usize = 64;

/// The cuts of files that stand in a buffer, a window of them at most: a `push` for each file, one
/// `hash` for all cuts, and then each file's digests can be compared with those that are listed; or
/// `hash_both`, and then each file's digests can be had. The window takes no memory.
#[derive(Drop)]
pub struct CutWindow {
    piece_length: usize,
    starts: [usize; WINDOW],
    sizes: [usize; WINDOW],
    digests: [[u8; 20]; WINDOW],
    own: [[u8; 20]; WINDOW],
    count: usize,
    ghost some: { 0 < piece_length },
    ghost whole_blocks: { piece_length % 64 ≡ 0 },
    ghost within: { count ≤ 64 },
}

impl CutWindow {
    ghost use Rattle.file_windows.specs.Windows.{AreCutsHashed, AreCutsWithin, AreFileCutsListed, AreOwnHashed, HasCuts, bytes_at, cut_total, length_of_cuts};

    /// No file, of a torrent with this piece length. Conditions: it is a multiple of 64, and not 0.
    pub fn new(piece_length: usize) -> CutWindow
        requires some { 0 < piece_length }
        requires whole_blocks { piece_length % 64 ≡ 0 }
        ensures none { cut_total result ≡ 0 }
        ensures piece_length { length_of_cuts result ≡ piece_length }
        ensures within { (size : ℕ) → AreCutsWithin result size }
    {
        CutWindow {
            piece_length,
            starts: [0; WINDOW],
            sizes: [0; WINDOW],
            digests: [[0; 20]; WINDOW],
            own: [[0; 20]; WINDOW],
            count: 0,
        }
    }

    /// Lets go of all files.
    pub fn clear(&mut self)
        ensures none { cut_total self.new ≡ 0 }
        ensures piece_length { length_of_cuts self.new ≡ length_of_cuts self.old }
        ensures within { (size : ℕ) → AreCutsWithin self.new size }
    {
        self.count = 0;
    }

    /// Whether there is room for the cuts of one more file of this size.
    pub fn has_room(&self, size: usize) -> bool
        ensures { IsTrue result
            ↔ (cut_total self.now + pieces_of (length_of_cuts self.now) size ≤ 64) }
    {
        cut_count(self.piece_length, size) <= WINDOW - self.count
    }

    /// Takes a file of this size that stands at this byte of the buffer: the number of its first
    /// cut. Condition: there is room for its cuts.
    pub fn push(&mut self, start: usize, size: usize) -> usize
        requires room { cut_total self.old + pieces_of (length_of_cuts self.old) size ≤ 64 }
        requires fits { start + size < 2 ^ 64 }
        ensures more { cut_total self.new
            ≡ cut_total self.old + pieces_of (length_of_cuts self.old) size }
        ensures piece_length { length_of_cuts self.new ≡ length_of_cuts self.old }
        ensures has { HasCuts self.new result start size }
        ensures kept { (first from many : ℕ) → HasCuts self.old first from many
            → HasCuts self.new first from many }
        ensures within { (bytes : ℕ) → AreCutsWithin self.old bytes → start + size ≤ bytes
            → AreCutsWithin self.new bytes }
    {
        let first = self.count;
        let cuts = cut_count(self.piece_length, size);
        'cuts: for j in 0..cuts {
            let (begin, bytes) = cut_of(self.piece_length, size, j);
            self.starts[first + j] = start + begin;
            self.sizes[first + j] = bytes;
        }
        self.count = first + cuts;
        first
    }

    /// Hashes all cuts, each filled up with zeros to the piece length. Condition: they stand in the
    /// buffer.
    pub fn hash(&mut self, buffer: &[u8])
        requires { AreCutsWithin self.old (length buffer.now) }
        ensures hashed { AreCutsHashed self.new buffer.now }
        ensures piece_length { length_of_cuts self.new ≡ length_of_cuts self.old }
        ensures total { cut_total self.new ≡ cut_total self.old }
        ensures within { (bytes : ℕ) → AreCutsWithin self.old bytes → AreCutsWithin self.new bytes }
        ensures kept { (first start size : ℕ) → HasCuts self.old first start size
            → HasCuts self.new first start size }
    {
        let count = self.count;
        let starts = self.starts;
        let sizes = self.sizes;
        let mut digests = self.digests;
        write_digests(
            buffer,
            self.piece_length,
            &starts[..count],
            &sizes[..count],
            &mut digests[..count],
        );
        self.digests = digests;
    }

    /// Hashes all cuts twice: as they are, and filled up with zeros to the piece length. Condition:
    /// they stand in the buffer.
    pub fn hash_both(&mut self, buffer: &[u8])
        requires { AreCutsWithin self.old (length buffer.now) }
        ensures own { AreOwnHashed self.new buffer.now }
        ensures hashed { AreCutsHashed self.new buffer.now }
        ensures piece_length { length_of_cuts self.new ≡ length_of_cuts self.old }
        ensures total { cut_total self.new ≡ cut_total self.old }
        ensures within { (bytes : ℕ) → AreCutsWithin self.old bytes → AreCutsWithin self.new bytes }
        ensures kept { (first start size : ℕ) → HasCuts self.old first start size
            → HasCuts self.new first start size }
    {
        let count = self.count;
        let starts = self.starts;
        let sizes = self.sizes;
        let mut own = self.own;
        let mut digests = self.digests;
        write_both(
            buffer,
            self.piece_length,
            &starts[..count],
            &sizes[..count],
            &mut own[..count],
            &mut digests[..count],
        );
        self.own = own;
        self.digests = digests;
    }

    /// The digests of a file of this size, whose first cut this is: those of its cuts, and that of
    /// the last one filled up with zeros. Condition: the cuts are in the window.
    ///
    /// # Errors
    ///
    /// It fails only if memory was refused, which is asked for only if the file has a byte.
    pub fn file(&self, alloc: Global, first: usize, size: usize) -> Result<V1File, NoMemory>
        requires { first + pieces_of (length_of_cuts self.now) size ≤ 64 }
        ensures file { IfOk result (λ file. (buffer : List ℕ) (start : ℕ)
            → HasCuts self.now first start size → AreOwnHashed self.now buffer
            → AreCutsHashed self.now buffer → start + size ≤ length buffer
            → IsV1File (length_of_cuts self.now) (bytes_at buffer start size) file) }
        ensures memory { OnErr result (0 < size) }
    {
        if size == 0 {
            return Ok(V1File {
                cuts: Vec::new(alloc),
                padded: [0; 20],
            });
        }
        let count = cut_count(self.piece_length, size);
        let cuts = Vec::from_slice(alloc, &self.own[first..first + count])?;
        Ok(V1File {
            cuts,
            padded: self.digests[first + count - 1],
        })
    }

    /// Whether these are the digests of the cuts from this one on: those of a file that begins
    /// there, each filled up with zeros. If the file has a cut for each of them, the answer is yes
    /// whenever they are.
    pub fn are_listed(&self, first: usize, listed: &[[u8; 20]]) -> bool
        requires { first + length listed.now ≤ 64 }
        ensures listed { IsTrue result → (buffer : List ℕ) (start size : ℕ)
            → HasCuts self.now first start size → AreCutsHashed self.now buffer
            → start + size ≤ length buffer
            → AreFileCutsListed (length_of_cuts self.now) listed.now (bytes_at buffer start size) }
        ensures always { (buffer : List ℕ) (start size : ℕ)
            → HasCuts self.now first start size → AreCutsHashed self.now buffer
            → start + size ≤ length buffer
            → length listed.now ≤ pieces_of (length_of_cuts self.now) size
            → AreFileCutsListed (length_of_cuts self.now) listed.now (bytes_at buffer start size)
            → IsTrue result }
    {
        'cuts: for k in 0..listed.len() {
            if self.digests[first + k] != listed[k] {
                return false;
            }
        }
        true
    }
}

// How many cuts a file of this size has.
fn cut_count(piece_length: usize, size: usize) -> usize
    requires { 0 < piece_length }
    ensures { result ≡ pieces_of piece_length size }
{
    size.div_ceil(piece_length)
}

// Where in a file of this size a cut of it begins, and how many bytes it has. Condition: the file
// has the cut.
fn cut_of(piece_length: usize, size: usize, number: usize) -> (usize, usize)
    requires some { 0 < piece_length }
    requires there { number < pieces_of piece_length size }
    ensures begin { result.0 ≡ piece_length * number }
    ensures bytes { result.1 ≡ min (size - piece_length * number) piece_length }
    ensures inside { result.0 + result.1 ≤ size }
{
    let begin = piece_length * number;
    (begin, (size - begin).min(piece_length))
}
