//! What a session says of one message.
ghost use Rattle.std.specs.Prelude.{◌≡◌, ◌+◌, ◌^◌, ◌<◌, ◌≤◌, [], ◌∷◌, ◌++◌, length, slice_get, is_some, Option, Some};
ghost use Rattle.std.specs.List.{list_any};
ghost use Rattle.session.specs.Blocks.{entry_of, most_blocks, place_of_entry};
ghost use Rattle.partial_tree.specs.declared.refusal.BlockRefusal.{BlockRefusal as Why};

use partial_tree::{BlockRefusal, HashRefusal};
use std::marker::Model;

/// What a session says of one message.
#[derive(Clone, Copy, Debug, PartialEq, Eq)]
pub enum Verdict {
    /// Hashes were taken: the number of places newly known, those past the file's end counted.
    Stored(u64),
    /// Hashes were refused, and nothing has changed.
    HashRefused(HashRefusal),
    /// What is made of each block of a piece message: its digest is its known leaf, and it is
    /// marked, or it is refused by itself.
    Blocks(Blocks),
    /// A piece message was refused whole, and nothing has changed.
    BlockRefused(BlockRefusal),
    /// The hashes that are asked for are known.
    Answered,
    /// The range is none of a tree's, or not all of its hashes are known.
    Rejected,
    /// A peer rejected our request.
    RejectNoted,
    /// A message that only keeps the connection alive.
    KeepAlive,
    /// A message of another id.
    Skipped(u8),
    /// Our own request went out, and its ask is open.
    Noted,
    /// Any other message of our own went out.
    Sent,
}

// The most blocks that one piece message carries.
const MOST_BLOCKS: usize = 17;

/// What a session says of the blocks of one piece message, which are consecutive blocks of one
/// file: an entry for each, from 1 to 17. An entry is verified, and then the leaf is marked, or it
/// is refused by itself.
#[derive(Clone, Copy, Debug, PartialEq, Eq)]
pub struct Blocks {
    file: usize,
    first: u64,
    count: usize,
    refusals: [Option<BlockRefusal>; MOST_BLOCKS],
}

impl Model for Blocks {
    ghost use Rattle.std.specs.Prelude.{length, take};
    ghost use Rattle.session.specs.Blocks.{BlocksSeen, IsArrayOf, cells_of};
    ghost use Rattle.std.proofs.Common.{ap₂};

    ghost Value = { BlocksSeen };

    ghost view = { λ b. record {
      file = b.file;
      first = b.first;
      refusals = take b.count b.refusals;
    } };

    ghost invariant = { λ b. IsArrayOf b.refusals b.count b.first };

    ghost inverse = { λ v. record {
      file = v.file;
      first = v.first;
      count = length v.refusals;
      refusals = cells_of v.refusals;
    } };

    ghost inverse_ok = { λ b h. ap₂ (λ n cells. record b { count = n; refusals = cells })
        h.count_is h.cells_are };
}

impl Blocks {
    /// No entry yet, of the blocks of a file from this one on.
    pub(crate) fn new(file: usize, first: u64) -> Blocks
        requires { first + most_blocks < 2 ^ 64 }
        ensures { result ≡ record { file = file; first = first; refusals = [] } }
    {
        Blocks {
            file,
            first,
            count: 0,
            refusals: [None; MOST_BLOCKS],
        }
    }

    /// With the entry of one more block.
    pub(crate) fn push(&mut self, refusal: Option<BlockRefusal>)
        requires { length self.old.refusals < most_blocks }
        ensures { self.new ≡ record self.old { refusals = self.old.refusals ++ refusal ∷ [] } }
    {
        self.refusals[self.count] = refusal;
        self.count += 1;
    }

    /// How many entries there are: as many as the message has blocks, 17 at most.
    pub fn len(&self) -> usize
        ensures count { result ≡ length self.now.refusals }
        ensures few { result ≤ most_blocks }
    {
        self.count
    }

    /// The file and the block of an entry, both numbered from 0. Condition: there are more than
    /// `entry` entries.
    pub fn place(&self, entry: usize) -> (usize, u64)
        requires { entry < length self.now.refusals }
        ensures { result ≡ place_of_entry self.now entry }
    {
        (self.file, self.first + entry as u64)
    }

    /// Why the block of an entry is refused; `None` if it is verified. Condition: there are more
    /// than `entry` entries.
    pub fn refusal(&self, entry: usize) -> Option<BlockRefusal>
        requires { entry < length self.now.refusals }
        ensures { slice_get self.now.refusals entry ≡ Some result }
    {
        let refusals = &self.refusals[..self.count];
        refusals[entry]
    }

    /// Whether an entry is refused.
    pub fn has_refusal(&self) -> bool
        ensures { result ≡ list_any is_some self.now.refusals }
    {
        let refusals = &self.refusals[..self.count];
        refusals.iter().any(|refusal| refusal.is_some())
    }

    /// The file and the block of an entry that is verified, both numbered from 0, or why it is
    /// refused. Condition: there are more than `entry` entries.
    pub fn get(&self, entry: usize) -> Result<(usize, u64), BlockRefusal>
        requires { entry < length self.now.refusals }
        ensures { (r : Option Why) × (slice_get self.now.refusals entry ≡ Some r)
            × (result ≡ entry_of self.now entry r) }
    {
        match self.refusal(entry) {
            None => Ok(self.place(entry)),
            Some(refusal) => Err(refusal),
        }
    }
}
