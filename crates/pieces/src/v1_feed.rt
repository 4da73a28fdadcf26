//! What a hybrid states of its version 1 stream, and the stream compared with that as its bytes
//! come (BEP 3, "pieces"; BEP 52, "Upgrade Path").
ghost use Rattle.std.specs.Prelude.{◌≡◌, ℕ, ◌+◌, ◌-◌, ◌*◌, ◌<◌, ◌≤◌, [], List, drop, length, take, replicate, slice_get, None, Some, is_some, true, IsTrue, ◌↔◌};
ghost use Rattle.pieces.specs.Cuts.{IsNext};
ghost use Rattle.pieces.specs.CutStreams.{bytes_running};
ghost use Rattle.pieces.specs.Running.{told_in};
ghost use Rattle.pieces.specs.Staged.{AreBegun, IsLargeStream};

use crate::cut_stream::CutStream;
use crate::cutter::ZEROS;
use crate::next_cuts::NextCuts;
use crate::stages::Stages;
use std::alloc::Global;

/// The version 1 part of a hybrid.
#[derive(Clone, Copy, Debug, PartialEq)]
pub struct V1<'a> {
    /// The SHA-1 digests of the stream's cuts.
    pub pieces: &'a [[u8; 20]],
    /// The length of the stream in bytes.
    pub total: u64,
}

/// Compares the version 1 stream with the digests of its pieces, while the stream comes part by
/// part. After the first bad cut it digests nothing more.
#[derive(Drop)]
pub struct V1Feed<'a> {
    pieces: &'a [[u8; 20]],
    // How many bytes the stream has, and how many of them came.
    total: u64,
    given: u64,
    // The stream up to the first bad cut, and how many of its cuts were compared.
    stream: CutStream,
    cut: u64,
    // The first of these whose digest differs.
    bad: Option<u64>,
    ghost in_stream: { given ≤ total },
    ghost counted: { stream.cutter.piece_length * cut + bytes_running stream ≤ given },
    ghost in_time: { told_in stream.stages ≤ cut },
}

impl<'a> V1Feed<'a> {
    ghost use Rattle.pieces.specs.CutStreams.{turns};
    ghost use Rattle.pieces.specs.NextCuts.{KnowsCuts};
    ghost use Rattle.pieces.specs.Feeding.{BeginsStream, CountsContent, EndsStream, FeedsStream, bytes_given, store_room, total};

    /// A feed that was given nothing, for a stream of the length that the hybrid states. Condition:
    /// the piece length is above 0.
    pub fn new(v: &V1<'a>, piece_length: u64) -> V1Feed<'a>
        requires { 0 < piece_length }
        ensures begins { BeginsStream v.now.total v.now.pieces.now piece_length result }
        ensures no_memory { store_room result ≡ 0 }
    {
        V1Feed::over(v, piece_length, None)
    }

    /// A feed as `new` makes it, which takes memory to hash large pieces side by side as they come:
    /// if the stream has at least four whole pieces, eight pieces have more than 32 MiB, and what
    /// waits to be hashed, 29 eighths of a piece, has at most 64 MiB. If memory is refused, it goes
    /// without. Condition: the piece length is above 0.
    pub fn with_room(alloc: Global, v: &V1<'a>, piece_length: u64) -> V1Feed<'a>
        requires { 0 < piece_length }
        ensures begins { BeginsStream v.now.total v.now.pieces.now piece_length result }
        ensures most { store_room result ≤ 67108864 }
        ensures worth { 0 < store_room result → IsLargeStream v.now.total piece_length }
    {
        V1Feed::over(
            v,
            piece_length,
            Stages::of_stream(alloc, v.total, piece_length),
        )
    }

    // A feed with these stages, if there are some.
    fn over(v: &V1<'a>, piece_length: u64, stages: Option<Stages>) -> V1Feed<'a>
        requires some { 0 < piece_length }
        requires begun { AreBegun stages piece_length }
        ensures begins { BeginsStream v.now.total v.now.pieces.now piece_length result }
        ensures stages { result.stream.stages ≡ stages }
    {
        V1Feed {
            pieces: v.pieces,
            total: v.total,
            given: 0,
            stream: CutStream::new(piece_length, stages),
            cut: 0,
            bad: None,
        }
    }

    /// How many bytes the stream has.
    pub fn total(&self) -> u64
        ensures { result ≡ total self.now }
    {
        self.total
    }

    /// How many bytes of the stream came so far: the place in the stream at which the next ones
    /// stand. It is at most `total()`.
    pub fn given(&self) -> u64
        ensures value { result ≡ bytes_given self.now }
        ensures bound { result ≤ total self.now }
        ensures content { CountsContent self.now result }
    {
        self.given
    }

    /// Takes the stream's next bytes. Condition: no more of them than are still to come.
    pub fn push(&mut self, bytes: &[u8])
        requires { bytes_given self.old + length bytes.now ≤ total self.old }
        ensures { FeedsStream self.old bytes.now self.new }
    {
        let mut next = NextCuts::new();
        let mut start = 0;
        'parts: while start < bytes.len() {
            start += self.take(&mut next, &bytes[start..]);
        }
    }

    /// Takes this many zero bytes, as stand between two files. Condition: no more of them than are
    /// still to come.
    pub fn zeros(&mut self, n: u64)
        requires { bytes_given self.old + n ≤ total self.old }
        ensures { FeedsStream self.old (replicate n 0) self.new }
    {
        let zeros = [0u8; ZEROS];
        let mut done = 0;
        'parts: while done < n {
            if self.bad.is_some() {
                return self.skip(n - done);
            }
            let part = (n - done).min(ZEROS as u64);
            self.push(&zeros[..part as usize]);
            done += part;
        }
    }

    /// The first cut whose SHA-1 digest is not the one in `pieces`, or `None` if the digests of the
    /// cuts are `pieces`.
    pub fn finish(self) -> Option<u64>
        ensures { EndsStream self.entry result }
    {
        let mut bad = self.bad;
        if bad.is_some() {
            return bad;
        }
        let mut stream = self.stream;
        let mut cut = self.cut;
        let mut left = stream.settle();
        'cuts: while let Some(digest) = stream.next_left(&mut left) {
            bad = first_bad(bad, self.pieces, cut, &digest);
            cut += 1;
        }
        if bad.is_none() && cut < self.pieces.len() as u64 {
            return Some(cut);
        }
        bad
    }

    // Takes the first of these bytes: how many.
    fn take(&mut self, next: &mut NextCuts, bytes: &[u8]) -> usize
        requires some { 0 < length bytes.now }
        requires room { bytes_given self.old + length bytes.now ≤ total self.old }
        requires next { self.old.stream.stages ≡ None
            → KnowsCuts next.old self.old.stream.cutter.piece_length bytes.now }
        ensures bound { result ≤ length bytes.now }
        ensures less { turns self.new.stream (length bytes.now - result)
            < turns self.old.stream (length bytes.now) }
        ensures feeds { FeedsStream self.old (take result bytes.now) self.new }
        ensures next { result < length bytes.now → self.new.stream.stages ≡ None
            → KnowsCuts next.new self.new.stream.cutter.piece_length (drop result bytes.now) }
    {
        if self.bad.is_some() {
            self.skip(bytes.len() as u64);
            return bytes.len();
        }
        let (taken, digest) = self.stream.take(next, bytes);
        self.given += taken as u64;
        let Some(digest) = digest else {
            return taken;
        };
        self.bad = first_bad(self.bad, self.pieces, self.cut, &digest);
        self.cut += 1;
        taken
    }

    // Counts this many bytes, after a bad cut.
    fn skip(&mut self, n: u64)
        requires bad { is_some self.old.bad ≡ true }
        requires room { bytes_given self.old + n ≤ total self.old }
        ensures stream { self.new.stream ≡ self.old.stream }
        ensures feeds { (bytes : List ℕ) → length bytes ≡ n
            → FeedsStream self.old bytes self.new }
    {
        self.given += n;
    }
}

// The first bad cut, after this digest of one more cut was compared.
fn first_bad(bad: Option<u64>, pieces: &[[u8; 20]], cut: u64, digest: &[u8; 20]) -> Option<u64>
    ensures { IsNext pieces.now cut digest.now bad result }
{
    if bad.is_none() && !is_listed(pieces, cut, digest) {
        return Some(cut);
    }
    bad
}

// Whether this is the digest that is listed for the cut.
fn is_listed(pieces: &[[u8; 20]], cut: u64, digest: &[u8; 20]) -> bool
    ensures { IsTrue result ↔ (slice_get pieces.now cut ≡ Some digest.now) }
{
    match pieces.get(cut as usize) {
        Some(listed) => listed == digest,
        None => false,
    }
}
