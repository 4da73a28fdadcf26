//! The running cut of a stream of bytes, and its SHA-1 digest (BEP 3, "pieces").

ghost use Rattle.std.specs.Prelude.{◌≡◌, ◌≢◌, ℕ, ◌+◌, ◌-◌, ◌<◌, ◌≤◌, ◌++◌, [], List, length, take, min, None, IsTrue, ◌↔◌};
ghost use Rattle.sha1.specs.Sha1.{sha1};

use sha1::Sha1;
use std::mem;

/// How many zeros are digested at once.
pub(crate) const ZEROS: usize = 4096;

/// The running cut of a stream: the bytes since the last cut was closed, at most a piece length.
#[derive(Drop)]
pub(crate) struct Cutter {
    piece_length: u64,
    // How many bytes the running cut holds.
    filled: u64,
    hasher: Sha1,
    // The digest of the running cut, if it was known before its bytes were taken: all of them.
    known: Option<[u8; 20]>,
    ghost some: { 0 < piece_length },
    ghost in_cut: { filled ≤ piece_length },
    ghost whole: { known ≢ None → filled ≡ piece_length },
}

impl Cutter {
    ghost use Rattle.pieces.specs.Cuts.{filled_up};
    ghost use Rattle.pieces.specs.Cutting.{IsCutting};

    /// A cutter whose running cut is empty.
    pub(crate) fn new(piece_length: u64) -> Cutter
        requires { 0 < piece_length }
        ensures piece_length { result.piece_length ≡ piece_length }
        ensures empty { result.filled ≡ 0 }
        ensures running { IsCutting result [] }
    {
        Cutter {
            piece_length,
            filled: 0,
            hasher: Sha1::new(),
            known: None,
        }
    }

    /// How long the cuts are.
    pub(crate) fn piece_length(&self) -> u64
        ensures value { result ≡ self.now.piece_length }
        ensures some { 0 < result }
    {
        self.piece_length
    }

    /// Whether the running cut has its full length.
    pub(crate) fn is_full(&self) -> bool
        ensures { IsTrue result ↔ (self.now.filled ≡ self.now.piece_length) }
    {
        self.filled == self.piece_length
    }

    /// Whether the running cut holds nothing.
    pub(crate) fn is_empty(&self) -> bool
        ensures { IsTrue result ↔ (self.now.filled ≡ 0) }
    {
        self.filled == 0
    }

    /// Takes the first of these bytes, as many as the running cut has room for: how many.
    pub(crate) fn take(&mut self, bytes: &[u8]) -> usize
        ensures taken { result ≡ min (self.old.piece_length - self.old.filled) (length bytes.now) }
        ensures piece_length { self.new.piece_length ≡ self.old.piece_length }
        ensures filled { self.new.filled ≡ self.old.filled + result }
        ensures running { (running : List ℕ) → IsCutting self.old running
            → IsCutting self.new (running ++ take result bytes.now) }
    {
        let room = self.piece_length - self.filled;
        let taken = room.min(bytes.len() as u64);
        self.hasher.update(&bytes[..taken as usize]);
        self.filled += taken;
        taken as usize
    }

    /// Takes a whole cut, whose digest is known. Condition: the running cut is empty.
    pub(crate) fn take_known(&mut self, digest: &[u8; 20], _cut: &[u8])
        requires empty { self.old.filled ≡ 0 }
        requires whole { length _cut.now ≡ self.old.piece_length }
        requires digest { digest.now ≡ sha1 _cut.now }
        ensures piece_length { self.new.piece_length ≡ self.old.piece_length }
        ensures filled { self.new.filled ≡ self.old.piece_length }
        ensures running { IsCutting self.new _cut.now }
    {
        self.filled = self.piece_length;
        self.known = Some(*digest);
    }

    /// The digest of the running cut; the next one is empty.
    pub(crate) fn close(&mut self) -> [u8; 20]
        ensures digest { (running : List ℕ) → IsCutting self.old running → result ≡ sha1 running }
        ensures piece_length { self.new.piece_length ≡ self.old.piece_length }
        ensures empty { self.new.filled ≡ 0 }
        ensures running { IsCutting self.new [] }
    {
        let hasher = mem::replace(&mut self.hasher, Sha1::new());
        self.filled = 0;
        match self.known.take() {
            Some(digest) => digest,
            None => hasher.finalize(),
        }
    }

    /// The digest of the running cut, filled up with zeros to the piece length.
    pub(crate) fn filled_up(&self) -> [u8; 20]
        ensures { (running : List ℕ) → IsCutting self.now running
            → result ≡ sha1 (filled_up self.now.piece_length running) }
    {
        if let Some(digest) = self.known {
            return digest;
        }
        let Ok(hasher) = self.hasher.clone() else {
            unreachable!();
        };
        let mut cutter = Cutter {
            piece_length: self.piece_length,
            filled: self.filled,
            hasher,
            known: None,
        };
        let zeros = [0u8; ZEROS];
        'zeros: while !cutter.is_full() {
            cutter.take(&zeros);
        }
        cutter.close()
    }
}
