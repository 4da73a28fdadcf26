//! What is held of pieces, in rows of cells.

ghost use Rattle.std.specs.Prelude.{◌≡◌, ℕ, ◌-◌, ◌*◌, ◌++◌, [], vec_capacity, ◌+◌, ◌<◌, ◌≤◌, ◌^◌, IfOk, IfSome, IfNone, IsSome, Some, None, true, false, length, set, replicate, sum_by};
ghost use Rattle.std.specs.Bool.{OnTrue, OnFalse};
ghost use Rattle.std.specs.FinMap.{empty, get, len, remove, values};
ghost use Rattle.fixed_maps.specs.Tiers.{items_at};
ghost use Rattle.fixed_maps.specs.FixedMaps.{map_of};
ghost use Rattle.holdings.specs.Tables.{IsRowAt, weigh};
ghost use Rattle.std.specs.Ordering.{is_lt};
ghost use Rattle.node_maps.specs.Known.{place_cmp};
ghost use Rattle.holdings.specs.Holdings.{PieceSeen};
ghost use Rattle.session.specs.Pieces.{HasPiece};

use crate::kept::held_of;
use crate::run::Settled;
use crate::settling::{Piece, clear, settle};
use fixed_maps::FixedMap;
use hashtree::{Hash, NoMemory};
use node_maps::NodeMap;
use session::{HoldsTorrent, SessionOf};
use slab::Slab;
use std::alloc::Global;
use std::marker::Model;

/// A piece by its tree and its first block there.
pub(crate) type Key = (usize, u64);

/// Of some pieces, of each block the digest that is held, if there is one; and when the newest of
/// these blocks came. Each piece has a row of cells. The room for a number of pieces is taken once,
/// by [`PieceTable::new`], and it is not written before pieces come.
#[derive(Drop)]
pub(crate) struct PieceTable {
    order: FixedMap,
    rows: Slab<Key>,
    cells: Vec<Option<Hash>>,
    newest: Vec<u64>,
    width: usize,
    room: usize,
}

impl Model for PieceTable {
    ghost use Rattle.std.specs.Vec.{vec_capacity};
    ghost use Rattle.holdings.specs.Holdings.{KeptPieces, kept_code};
    ghost use Rattle.holdings.specs.Tables.{IsTable, seen_table};

    ghost Value = { KeptPieces };

    ghost coded = { kept_code };

    ghost view = { λ t. seen_table t.order t.room t.cells.items t.newest.items t.width };

    ghost invariant = { λ t. IsTable t.order t.rows t.cells.items t.newest.items t.width t.room
        (vec_capacity t.cells) (vec_capacity t.newest) };
}

impl PieceTable {
    ghost use Rattle.holdings.specs.Holdings.{KeptPieces, WritesCell, held_in, seen_at, with_table_piece};
    ghost use Rattle.holdings.specs.Rows.{SettlesRow};

    /// No pieces, and room for a number of them, each of as many blocks as `width` says or fewer.
    /// It fails if memory is refused. Condition: the number is 2^32 at most.
    pub(crate) fn new(alloc: Global, room: usize, width: usize) -> Result<PieceTable, NoMemory>
        requires { room ≤ 2 ^ 32 }
        ensures none { IfOk result (λ t. t.pieces ≡ empty) }
        ensures room { IfOk result (λ t. t.room ≡ room) }
        ensures width { IfOk result (λ t. t.width ≡ width) }
    {
        let rows = rows_of(alloc, room)?;
        let Some(cells) = room.checked_mul(width) else {
            return Err(NoMemory);
        };
        Ok(PieceTable {
            order: FixedMap::new(alloc, room)?,
            cells: Vec::with_capacity(alloc, cells)?,
            newest: Vec::with_capacity(alloc, room)?,
            rows,
            width,
            room,
        })
    }

    /// How many pieces there are.
    pub(crate) fn len(&self) -> usize
        ensures { result ≡ len self.now.pieces }
    {
        self.order.len()
    }

    /// How many blocks a piece may have.
    pub(crate) fn width(&self) -> usize
        ensures { result ≡ self.now.width }
    {
        self.width
    }

    /// How many digests are held.
    pub(crate) fn held(&self) -> u64
        ensures { result ≡ sum_by (λ x. held_in x.cells) (values self.now.pieces) }
    {
        let mut held = 0;
        'tiers: for tier in 0..self.order.tiers() {
            held += held_of_tier(&self.order, &self.cells, self.width, tier);
        }
        held
    }

    /// The first piece whose key is not below this one.
    pub(crate) fn at_least(&self, key: Key) -> Option<Key>
        ensures there { IfSome result (λ k. IsSome (seen_at self.now k)) }
        ensures from { IfSome result (λ k. is_lt (place_cmp k key) ≡ false) }
        ensures least { IfSome result (λ k. (q : ℕ × ℕ) → is_lt (place_cmp q key) ≡ false
            → is_lt (place_cmp q k) ≡ true → seen_at self.now q ≡ None) }
        ensures none { IfNone result ((q : ℕ × ℕ) → is_lt (place_cmp q key) ≡ false
            → seen_at self.now q ≡ None) }
    {
        let (found, _) = self.order.at_least(key)?;
        Some(found)
    }

    /// How many blocks a piece has.
    pub(crate) fn size_of(&self, key: Key) -> Option<usize>
        ensures some { IfSome result (λ size. (x : PieceSeen) × (seen_at self.now key ≡ Some x)
            × (length x.cells ≡ size)) }
        ensures none { IfNone result (seen_at self.now key ≡ None) }
    {
        let (_, size) = self.order.get(key)?;
        Some(size as usize)
    }

    /// When the newest block of a piece came.
    pub(crate) fn newest_of(&self, key: Key) -> Option<u64>
        ensures some { IfSome result (λ t. (x : PieceSeen) × (seen_at self.now key ≡ Some x)
            × (x.newest ≡ t)) }
        ensures none { IfNone result (seen_at self.now key ≡ None) }
    {
        let (row, _) = self.order.get(key)?;
        Some(self.newest[row])
    }

    /// The cells of a piece.
    pub(crate) fn cells_of(&self, key: Key) -> Option<&[Option<Hash>]>
        ensures some { IfSome result (λ cs. (x : PieceSeen) × (seen_at self.now key ≡ Some x)
            × (x.cells ≡ cs.now)) }
        ensures none { IfNone result (seen_at self.now key ≡ None) }
    {
        let (_, start, end) = row_at(&self.order, self.cells.len(), self.width, key)?;
        Some(&self.cells[start..end])
    }

    /// Writes the digest of a block of a piece, which came now. Conditions: the piece is there and
    /// has more than `block` blocks.
    pub(crate) fn write(&mut self, key: Key, block: usize, digest: Hash, now: u64)
        requires { (x : PieceSeen) × (seen_at self.old key ≡ Some x) × (block < length x.cells) }
        ensures { WritesCell self.old key block digest now self.new }
    {
        let Some((row, start, end)) = row_at(&self.order, self.cells.len(), self.width, key) else {
            unreachable!()
        };
        let cells = &mut self.cells[start..end];
        cells[block] = Some(digest);
        self.newest[row] = now;
    }

    /// Adds a piece, of which only this digest is held, of a block that came now. Conditions: the
    /// piece is new and no longer than a row, there is room for it, and it has more than `block`
    /// blocks.
    pub(crate) fn add(&mut self, key: Key, size: usize, block: usize, digest: Hash, now: u64)
        requires new { seen_at self.old key ≡ None }
        requires room { len self.old.pieces < self.old.room }
        requires size { size ≤ self.old.width }
        requires block { block < size }
        ensures { self.new ≡ with_table_piece self.old key
            (record { cells = set (replicate size None) block (Some digest); newest = now }) }
    {
        let row = self.rows.insert_reserved(key);
        self.order.insert(key, (row, size as u64));
        let start = row * self.width;
        grow(&mut self.cells, start + self.width, None);
        grow(&mut self.newest, row + 1, 0);
        let fresh = &mut self.cells[start..start + size];
        clear(fresh);
        fresh[block] = Some(digest);
        self.newest[row] = now;
    }

    /// Settles what can be settled first of a piece that is there.
    pub(crate) fn settle_row<T: HoldsTorrent, N: NodeMap>(
        &mut self,
        alloc: Global,
        session: &mut SessionOf<T, N>,
        piece: Piece,
    ) -> Result<Option<Settled>, NoMemory>
        requires tree { piece.tree < length session.old.torrent.trees }
        requires held { (x : PieceSeen) × (seen_at self.old (piece.tree, piece.first) ≡ Some x)
            × (length x.cells ≡ piece.size) }
        requires few { piece.first + piece.size < 2 ^ 64 }
        requires piece { HasPiece session.old piece.tree piece.first piece.size }
        ensures cells { (x : PieceSeen) × (seen_at self.old (piece.tree, piece.first) ≡ Some x)
            × SettlesRow session.old piece.tree piece.first x result session.new self.old self.new }
    {
        let key = (piece.tree, piece.first);
        let Some((_, start, end)) = row_at(&self.order, self.cells.len(), self.width, key) else {
            unreachable!()
        };
        let cells = &mut self.cells[start..end];
        settle(alloc, cells, session, piece)
    }

    /// Takes out a piece, if it is there.
    pub(crate) fn remove(&mut self, key: Key)
        ensures { self.new ≡ record self.old { pieces = remove self.old.pieces key } }
    {
        if let Some((row, _)) = self.order.get(key) {
            self.order.remove(key);
            let _ = self.rows.try_remove(row);
        }
    }
}

// Rows for this many pieces, and room for no more.
fn rows_of(alloc: Global, room: usize) -> Result<Slab<Key>, NoMemory>
    ensures none { IfOk result (λ rows. rows.slots ≡ []) }
    ensures exact { IfOk result (λ rows. rows.capacity ≡ room) }
{
    let rows = Slab::with_capacity(alloc, room)?;
    // A slab takes room for what was asked for; no clause of `with_capacity` says for no more.
    if rows.capacity() != room {
        return Err(NoMemory);
    }
    Ok(rows)
}

// Makes a list at least this long, by an item that is put at its end. Condition: there is room.
fn grow<T: Copy + Drop>(items: &mut Vec<T>, len: usize, item: T)
    requires { len ≤ vec_capacity items.old }
    ensures items { items.new.items
        ≡ items.old.items ++ replicate (len - length items.old.items) item }
    ensures room { vec_capacity items.new ≡ vec_capacity items.old }
{
    'each: for _i in items.len()..len {
        items.push_reserved(item);
    }
}

// The row of a piece, and where its cells begin and end among all of this number.
fn row_at(order: &FixedMap, len: usize, width: usize, key: Key) -> Option<(usize, usize, usize)>
    requires low { (q p : ℕ × ℕ) → get (map_of order.now) q ≡ Some p → p.1 ≤ width }
    requires inside { (q p : ℕ × ℕ) → get (map_of order.now) q ≡ Some p
        → p.0 * width + width ≤ len }
    ensures some { IfSome result (λ r. IsRowAt (map_of order.now) width len key r.0 r.1 r.2) }
    ensures none { IfNone result (get (map_of order.now) key ≡ None) }
{
    let (row, size) = order.get(key)?;
    let start = row * width;
    Some((row, start, start + size as usize))
}

// How many digests are held of the pieces of one tier.
fn held_of_tier(order: &FixedMap, cells: &[Option<Hash>], width: usize, tier: usize) -> u64
    requires tier { tier < length order.now.tiers }
    requires low { (q p : ℕ × ℕ) → get (map_of order.now) q ≡ Some p → p.1 ≤ width }
    requires inside { (q p : ℕ × ℕ) → get (map_of order.now) q ≡ Some p
        → p.0 * width + width ≤ length cells.now }
    requires few { length (items_at order.now.tiers tier) * width < 2 ^ 64 }
    requires many { length (items_at order.now.tiers tier) < 2 ^ 63 }
    requires bytes { length cells.now * 33 < 2 ^ 63 }
    ensures held { result ≡ sum_by (weigh cells.now width) (items_at order.now.tiers tier) }
    ensures few { result ≤ length (items_at order.now.tiers tier) * width }
{
    let mut held = 0;
    let mut place = 0;
    'places: while let Some((_, (row, size))) = order.entry(tier, place) {
        let start = row * width;
        held += held_of(&cells[start..start + size as usize]);
        place += 1;
    }
    held
}
