//! What is held of the pieces of a torrent's trees.

ghost use Rattle.std.specs.Prelude.{◌≡◌, ℕ, ◌+◌, ◌<◌, ◌≤◌, ◌^◌, IfOk, IfSome, IfNone, OnOk, OnErr, Some, None, length};
ghost use Rattle.std.specs.FinMap.{get, empty};
ghost use Rattle.holdings.specs.Holdings.{PieceSeen, CannotKeep, KeepsDigest, Renews, BeginsPiece, held_count, most_pieces};

use crate::kept::{enroll, giving_way, withdraw};
use crate::piece_table::{Key, PieceTable};
use crate::run::Run;
use crate::settling::Piece;
use fixed_maps::FixedMap;
use hashtree::{Hash, NoMemory};
use std::alloc::Global;
use std::marker::Model;

/// The digests that are held of blocks whose leaves are not known, for each place the newest one.
/// They stand by pieces. A piece takes the room of all its blocks, so that there is a greatest
/// number of pieces; beyond it the piece gives way whose newest block came longest ago.
#[derive(Drop)]
pub struct Holdings {
    pub(crate) alloc: Global,
    pub(crate) pieces: PieceTable,
    pub(crate) ages: FixedMap,
    most: usize,
    clock: u64,
}

impl Model for Holdings {
    ghost use Rattle.std.specs.Prelude.{◌≤◌};
    ghost use Rattle.holdings.specs.Holdings.{HoldingsSeen, holdings_code, seen_holdings, IsKept};

    ghost Value = { HoldingsSeen };

    ghost coded = { holdings_code };

    ghost view = { λ h. seen_holdings h.pieces h.most h.clock };

    ghost invariant = { λ h. IsKept h.pieces h.ages h.most h.clock };
}

impl Holdings {
    /// Nothing is held yet. The bound is how many blocks may be held; it is in no case below
    /// `longest`, which is how many blocks the torrent's longest piece has. All memory that is ever
    /// needed to hold is asked for here, and it fails if that is refused. What is asked for is not
    /// written before blocks come.
    pub fn new(alloc: Global, bound: usize, longest: usize) -> Result<Holdings, NoMemory>
        ensures empty { IfOk result (λ h. h.pieces ≡ empty) }
        ensures most { IfOk result (λ h. h.most ≡ most_pieces bound longest) }
        ensures longest { IfOk result (λ h. h.longest ≡ longest) }
        ensures clock { IfOk result (λ h. h.clock ≡ 0) }
    {
        let most = (bound / longest.max(1)).max(1).min(1 << 31);
        Ok(Holdings {
            alloc,
            pieces: PieceTable::new(alloc, most + 1, longest)?,
            ages: FixedMap::new(alloc, most + 1)?,
            most,
            clock: 0,
        })
    }

    /// Holds the digest of a block of a piece, in place of an older one. If the piece is new and
    /// there is no room for it, another one gives way, and its blocks are returned. Takes no
    /// memory. Fails if 2^64 - 1 digests were held before, if the piece is held with fewer blocks,
    /// or if it is longer than the longest; then nothing has changed. Condition: the piece has more
    /// than `block` blocks.
    pub(crate) fn keep(
        &mut self,
        piece: Piece,
        block: usize,
        digest: Hash,
    ) -> Result<Option<Run>, NoMemory>
        requires block { block < piece.size }
        requires size { piece.size ≤ 2 ^ 32 }
        requires few { piece.first + piece.size < 2 ^ 64 }
        ensures kept { IfOk result
            (λ dropped. KeepsDigest self.old (piece.tree, piece.first) piece.size
            block digest dropped self.new) }
        ensures unchanged { OnErr result (self.new ≡ self.old) }
        ensures refused { OnErr result (CannotKeep self.old (piece.tree, piece.first) piece.size
            block) }
    {
        if self.clock == u64::MAX {
            return Err(NoMemory);
        }
        match self.newest_of((piece.tree, piece.first)) {
            Some(newest) => {
                self.renew((piece.tree, piece.first), newest, block, digest)?;
                Ok(None)
            }
            None => self.begin(piece, block, digest),
        }
    }

    /// How many blocks are held.
    pub fn held(&self) -> u64
        ensures { result ≡ held_count self.now }
    {
        self.pieces.held()
    }

    // When the newest block of a held piece came.
    fn newest_of(&self, key: Key) -> Option<u64>
        ensures some { IfSome result (λ t. (x : PieceSeen) × (get self.now.pieces key ≡ Some x)
            × (x.newest ≡ t)) }
        ensures none { IfNone result (get self.now.pieces key ≡ None) }
    {
        self.pieces.newest_of(key)
    }

    // Holds a digest of a held piece, whose newest block came at `before`.
    fn renew(&mut self, key: Key, before: u64, block: usize, digest: Hash) -> Result<(), NoMemory>
        requires clock { self.old.clock + 1 < 2 ^ 64 }
        requires newest { (x : PieceSeen) × (get self.old.pieces key ≡ Some x)
            × (x.newest ≡ before) }
        ensures kept { OnOk result (Renews self.old key block digest self.new) }
        ensures unchanged { OnErr result (self.new ≡ self.old) }
        ensures refused { OnErr result ((x : PieceSeen) × (get self.old.pieces key ≡ Some x)
            × (length x.cells ≤ block)) }
    {
        let now = self.clock;
        match self.pieces.size_of(key) {
            None => unreachable!(),
            Some(size) if size <= block => return Err(NoMemory),
            Some(_) => {}
        }
        self.ages.insert((0, now), key);
        self.pieces.write(key, block, digest, now);
        self.ages.remove((0, before));
        self.clock = now + 1;
        Ok(())
    }

    // Holds the first digest of a piece.
    fn begin(&mut self, piece: Piece, block: usize, digest: Hash) -> Result<Option<Run>, NoMemory>
        requires clock { self.old.clock + 1 < 2 ^ 64 }
        requires block { block < piece.size }
        requires size { piece.size ≤ 2 ^ 32 }
        requires few { piece.first + piece.size < 2 ^ 64 }
        requires new { get self.old.pieces (piece.tree, piece.first) ≡ None }
        ensures kept { IfOk result (λ dropped. BeginsPiece self.old (piece.tree, piece.first)
            piece.size block digest dropped self.new) }
        ensures unchanged { OnErr result (self.new ≡ self.old) }
        ensures refused { OnErr result (self.old.longest < piece.size) }
    {
        let now = self.clock;
        if self.pieces.width() < piece.size {
            return Err(NoMemory);
        }
        let victim = giving_way(&self.pieces, &self.ages, self.most);
        enroll(&mut self.pieces, &mut self.ages, piece, block, digest, now);
        self.clock = now + 1;
        let Some(victim) = victim else {
            return Ok(None);
        };
        withdraw(&mut self.pieces, &mut self.ages, victim.key, victim.newest);
        Ok(Some(victim.run))
    }
}
