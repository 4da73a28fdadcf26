//! The two ordered maps that keep what is held: by piece, and by age.

ghost use Rattle.std.specs.Prelude.{◌≡◌, ℕ, ◌+◌, ◌-◌, ◌<◌, ◌≤◌, IfSome, IfNone, Some, None, length, set, replicate};
ghost use Rattle.std.specs.FinMap.{insert, len, remove};
ghost use Rattle.fixed_maps.specs.FixedMaps.{map_of, map_room};
ghost use Rattle.holdings.specs.Holdings.{PieceSeen, IsKept, held_in, seen_at, with_table_piece};
ghost use Rattle.holdings.specs.Settling.{run_of};
ghost use Rattle.holdings.specs.Next.{IsBare, HoldsSome};

use crate::piece_table::{Key, PieceTable};
use crate::run::Run;
use crate::settling::{Piece, first_held};
use fixed_maps::FixedMap;
use hashtree::Hash;

/// A piece that gives way.
#[derive(Clone, Copy)]
pub(crate) struct Victim {
    pub(crate) key: Key,
    pub(crate) newest: u64,
    pub(crate) run: Run,
}

/// The piece whose newest block came longest ago, if as many are held as may be.
pub(crate) fn giving_way(pieces: &PieceTable, ages: &FixedMap, most: usize) -> Option<Victim>
    requires { (clock : ℕ) × IsKept pieces.now ages.now most clock }
    ensures there { IfSome result (λ v. (x : PieceSeen) × (seen_at pieces.now v.key ≡ Some x)
        × (x.newest ≡ v.newest)
        × (v.run ≡ run_of v.key.0 v.key.1 0 (length x.cells - 1))) }
    ensures oldest { IfSome result (λ v. (q : ℕ × ℕ) (x : PieceSeen)
        → seen_at pieces.now q ≡ Some x → v.newest ≤ x.newest) }
    ensures full { IfSome result (λ _. most ≤ len pieces.now.pieces) }
    ensures room { IfNone result (len pieces.now.pieces < most) }
{
    if pieces.len() < most {
        return None;
    }
    let Some(((_, newest), key)) = ages.first() else {
        unreachable!()
    };
    let Some(size) = pieces.size_of(key) else {
        unreachable!()
    };
    let last = (size as u64).saturating_sub(1);
    Some(Victim {
        key,
        newest,
        run: Run {
            tree: key.0,
            first: key.1,
            last: key.1 + last,
        },
    })
}

/// Adds a piece that is not there, of which only this digest is held, of a block that came now; by
/// itself and by its age, which no other one has. Conditions: there is room for it, and it has more
/// than `block` blocks, and no more than a piece may have.
pub(crate) fn enroll(
    pieces: &mut PieceTable,
    ages: &mut FixedMap,
    piece: Piece,
    block: usize,
    digest: Hash,
    now: u64,
)
    requires kept { (most : ℕ) × IsKept pieces.old ages.old most now }
    requires new { seen_at pieces.old (piece.tree, piece.first) ≡ None }
    requires size { piece.size ≤ pieces.old.width }
    requires block { block < piece.size }
    ensures piece { pieces.new ≡ with_table_piece pieces.old (piece.tree, piece.first)
        (record { cells = set (replicate piece.size None) block (Some digest); newest = now }) }
    ensures age { map_of ages.new ≡ insert (map_of ages.old) (0, now) (piece.tree, piece.first) }
    ensures room { map_room ages.new ≡ map_room ages.old }
{
    let key = (piece.tree, piece.first);
    pieces.add(key, piece.size, block, digest, now);
    ages.insert((0, now), key);
}

/// Takes out a piece, and its age.
pub(crate) fn withdraw(pieces: &mut PieceTable, ages: &mut FixedMap, key: Key, newest: u64)
    ensures piece { pieces.new ≡ record pieces.old { pieces = remove pieces.old.pieces key } }
    ensures age { map_of ages.new ≡ remove (map_of ages.old) (0, newest) }
    ensures room { map_room ages.new ≡ map_room ages.old }
{
    pieces.remove(key);
    ages.remove((0, newest));
}

/// When the newest block of a piece came of which nothing is held any more; `None` if something is
/// held of it, or it is not there.
pub(crate) fn is_bare(pieces: &PieceTable, key: Key) -> Option<u64>
    ensures bare { IfSome result (λ t. (x : PieceSeen) × (seen_at pieces.now key ≡ Some x)
        × (x.newest ≡ t) × IsBare x.cells) }
    ensures held { IfNone result ((x : PieceSeen) → seen_at pieces.now key ≡ Some x
        → HoldsSome x.cells) }
{
    match first_held(pieces.cells_of(key)?) {
        None => pieces.newest_of(key),
        Some(_) => None,
    }
}

/// The first block of the first piece of a tree that begins with block `from` or a later one, and
/// before block `end`.
pub(crate) fn next_key(pieces: &PieceTable, tree: usize, from: u64, end: u64) -> Option<u64>
    ensures inside { IfSome result (λ f. (from ≤ f) × (f < end)) }
    ensures passed { IfSome result (λ f. (q : ℕ) → from ≤ q → q < f
        → seen_at pieces.now (tree, q) ≡ None) }
    ensures none { IfNone result ((q : ℕ) → from ≤ q → q < end
        → seen_at pieces.now (tree, q) ≡ None) }
{
    if from >= end {
        return None;
    }
    let (found, first) = pieces.at_least((tree, from))?;
    if found == tree && first < end {
        Some(first)
    } else {
        None
    }
}

/// How many digests are held of a piece.
pub(crate) fn held_of(cells: &[Option<Hash>]) -> u64
    ensures count { result ≡ held_in cells.now }
    ensures few { result ≤ length cells.now }
{
    let mut held = 0;
    'each: for cell in cells {
        if cell.is_some() {
            held += 1;
        }
    }
    held
}
