//! A page: the cells of 512 places of one layer that lie side by side.

ghost use Rattle.std.specs.Prelude.{◌≡◌, ◌≢◌, ℕ, ◌+◌, ◌-◌, ◌<◌, ◌≤◌, ◌++◌, ◌↔◌, [], replicate, length, slice_index_or, IfOk, IsTrue, vec_len};
ghost use Rattle.std.specs.Vec.{vec_capacity};
ghost use Rattle.node_maps.specs.declared.page.Cell.TheVariants.{Empty};
ghost use Rattle.node_maps.specs.Cell.{hash_in, is_blank, page_length, with_hash};
ghost use Rattle.node_maps.specs.Runs.{AreKnown, hashes_from};

use hashtree::{Hash, NoMemory};
use std::alloc::Global;

/// How many places a page holds.
pub(crate) const PAGE_LENGTH: usize = 512;

/// What is known at a place, and whether its leaf is marked.
#[derive(Clone, Copy)]
pub(crate) enum Cell {
    Empty,
    Known(Hash),
    Marked(Hash),
}

impl Cell {
    ghost use Rattle.node_maps.specs.Cell.{hash_of, mark_of};

    /// The hash, if there is one.
    pub(crate) fn hash(self) -> Option<Hash>
        ensures { result ≡ hash_of self }
    {
        match self {
            Cell::Empty => None,
            Cell::Known(hash) => Some(hash),
            Cell::Marked(hash) => Some(hash),
        }
    }

    /// Whether the leaf is marked.
    pub(crate) fn is_marked(self) -> bool
        ensures { result ≡ mark_of self }
    {
        match self {
            Cell::Marked(_) => true,
            _ => false,
        }
    }

    /// The cell with a hash, and with a mark, if it has one or is to have one.
    pub(crate) fn with_hash(self, hash: Hash, mark: bool) -> Cell
        ensures { result ≡ with_hash self hash mark }
    {
        if mark || self.is_marked() {
            Cell::Marked(hash)
        } else {
            Cell::Known(hash)
        }
    }
}

/// The cells of 512 places side by side. The first of them are kept; each behind those is empty.
#[derive(Drop)]
pub(crate) struct Page {
    kept: Vec<Cell>,
    ghost few: { length kept.items ≤ page_length },
    ghost room: { vec_capacity kept ≡ page_length },
}

impl Page {
    /// A page that holds nothing. It takes the memory for all its cells, and writes none of them.
    pub(crate) fn blank(alloc: Global) -> Result<Page, NoMemory>
        ensures { IfOk result (λ page. page.kept.items ≡ []) }
    {
        let kept = Vec::with_capacity(alloc, PAGE_LENGTH)?;
        Ok(Page { kept })
    }

    /// The cell of a place. Condition: the place is below 512.
    pub(crate) fn cell(&self, place: usize) -> Cell
        requires { place < page_length }
        ensures { result ≡ slice_index_or self.now.kept.items place Empty }
    {
        match self.kept.get(place) {
            Some(cell) => *cell,
            None => Cell::Empty,
        }
    }

    /// Whether `count` places hold a hash, from one on. Condition: `first + count` is at most 512.
    pub(crate) fn knows(&self, first: usize, count: usize) -> bool
        requires { first + count ≤ page_length }
        ensures { IsTrue result ↔ AreKnown (hash_in self.now.kept.items) first count }
    {
        if first + count <= self.kept.len() {
            all_hold_hashes(&self.kept[first..first + count])
        } else {
            count == 0
        }
    }

    /// Appends the hashes of `count` places that hold one, from one on, to a list that has room for
    /// them. Condition: `first + count` is at most 512.
    pub(crate) fn copy_to(&self, first: usize, count: usize, out: &mut Vec<Hash>)
        requires inside { first + count ≤ page_length }
        requires known { AreKnown (hash_in self.now.kept.items) first count }
        requires room { vec_len out.old + count ≤ vec_capacity out.old }
        ensures copied { out.new.items
            ≡ out.old.items ++ hashes_from (hash_in self.now.kept.items) first count }
        ensures len { vec_len out.new ≡ vec_len out.old + count }
        ensures no_memory { vec_capacity out.new ≡ vec_capacity out.old }
    {
        // Places that hold hashes are kept, so only an empty run ends behind the kept cells.
        if first + count <= self.kept.len() {
            copy_hashes(&self.kept[first..first + count], out);
        }
    }

    /// Writes the hash of a place, and marks it, if `mark` says so. A mark that is there stays.
    /// Takes no memory. Condition: the place is below 512.
    pub(crate) fn put(&mut self, place: usize, hash: Hash, mark: bool)
        requires { place < page_length }
        ensures here { slice_index_or self.new.kept.items place Empty
            ≡ with_hash (slice_index_or self.old.kept.items place Empty) hash mark }
        ensures others { (o : ℕ) → o ≢ place → slice_index_or self.new.kept.items o Empty
            ≡ slice_index_or self.old.kept.items o Empty }
    {
        keep(&mut self.kept, place);
        self.kept[place] = self.kept[place].with_hash(hash, mark);
    }

    /// Whether the page holds nothing.
    pub(crate) fn is_blank(&self) -> bool
        ensures { result ≡ is_blank self.now.kept.items }
    {
        holds_nothing(&self.kept)
    }
}

// Appends empty cells until the cell of a place is there. If it is, nothing changes.
fn keep(cells: &mut Vec<Cell>, place: usize)
    requires { place < vec_capacity cells.old }
    ensures cells { cells.new.items
        ≡ cells.old.items ++ replicate (place + 1 - vec_len cells.old) Empty }
    ensures no_memory { vec_capacity cells.new ≡ vec_capacity cells.old }
{
    'places: while cells.len() <= place {
        cells.push_reserved(Cell::Empty);
    }
}

// Whether each cell holds a hash.
fn all_hold_hashes(cells: &[Cell]) -> bool
    ensures { IsTrue result ↔ AreKnown (hash_in cells.now) 0 (length cells.now) }
{
    'cells: for cell in cells {
        if let Cell::Empty = cell {
            return false;
        }
    }
    true
}

// Appends the hashes of cells that hold one to a list that has room for them.
fn copy_hashes(cells: &[Cell], out: &mut Vec<Hash>)
    requires known { AreKnown (hash_in cells.now) 0 (length cells.now) }
    requires room { vec_len out.old + length cells.now ≤ vec_capacity out.old }
    ensures copied { out.new.items
        ≡ out.old.items ++ hashes_from (hash_in cells.now) 0 (length cells.now) }
    ensures len { vec_len out.new ≡ vec_len out.old + length cells.now }
    ensures no_memory { vec_capacity out.new ≡ vec_capacity out.old }
{
    'cells: for cell in cells {
        match cell {
            Cell::Known(hash) | Cell::Marked(hash) => out.push_reserved(*hash),
            Cell::Empty => {}
        }
    }
}

// Whether no cell holds anything.
fn holds_nothing(cells: &[Cell]) -> bool
    ensures { result ≡ is_blank cells.now }
{
    'cells: for cell in cells {
        match cell {
            Cell::Empty => {}
            _ => return false,
        }
    }
    true
}
