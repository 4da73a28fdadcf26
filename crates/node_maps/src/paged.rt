//! A partial tree in pages: for each layer the pages that were asked for, found by their numbers.

ghost use Rattle.std.specs.Prelude.{◌≡◌, ◌≢◌, ◌⊎◌, ℕ, ◌+◌, ◌-◌, ◌/◌, ◌%◌, ◌^◌, ◌<◌, ◌≤◌, ◌++◌, ◌↔◌, Some, IsSome, IsOk, IsTrue, OnOk, OnErr, length, vec_len};
ghost use Rattle.std.specs.Vec.{vec_capacity};
ghost use Rattle.node_maps.specs.Places.{most_layers, tree_height};
ghost use Rattle.node_maps.specs.declared.page.Cell.TheVariants.{Empty};
ghost use Rattle.node_maps.specs.Cell.{mark_of, page_length, with_hash};
ghost use Rattle.node_maps.specs.Known.{tabulate, within};
ghost use Rattle.node_maps.specs.Nodes.{nodes};
ghost use Rattle.node_maps.specs.Held.{page_count};
ghost use Rattle.node_maps.specs.Paged.{AreAsMany, AreNotMore, GrowsBy, AreSamePagedCells, AreSamePagedCellsBut, HasPages, KeepPages, page_at, cell_at, hashes, HasPage, HoldsTree, marked_cells, row_pages, held_below, held_pages, AreTrimmed};
ghost use Rattle.node_maps.specs.Needed.{needs_few_pages};
ghost use Rattle.node_maps.specs.Runs.{AreKnown, hashes_from};

use crate::node_map::NodeMap;
use crate::page::{Cell, PAGE_LENGTH};
use crate::paged_row::PagedRow;
use hashtree::{Hash, NoMemory, Shape};
use std::alloc::Global;

/// The known nodes and the marked leaves in pages of 512 places of one layer, which are made when a
/// place of them is reserved: a row of pages for each layer.
#[derive(Drop)]
pub struct Paged {
    alloc: Global,
    shape: Shape,
    height: u32,
    rows: Vec<PagedRow>,
    ghost is_height: { height ≡ tree_height shape },
    ghost low: { height ≤ 32 },
    ghost few: { vec_len rows ≤ height + 1 },
    ghost in_tree: { HoldsTree height rows.items },
}

impl NodeMap for Paged {
    ghost seen = { λ f. nodes f.shape (tabulate f.height (within f.height (hashes f.rows.items)))
        (marked_cells f.height f.rows.items) };

    ghost held = { λ f. held_pages f.rows.items };

    ghost needed = { page_count };

    ghost has_room = { λ f l i. HasPage f.height f.rows.items l i };

    ghost needs_few = { needs_few_pages };

    fn empty(alloc: Global, shape: Shape) -> Paged {
        Paged {
            alloc,
            shape,
            height: shape.height(),
            rows: Vec::new(alloc),
        }
    }

    fn get(&self, layer: u32, index: u64) -> Option<Hash> {
        read_cell(&self.rows, layer, index).hash()
    }

    fn knows(&self, layer: u32, from: u64, count: u64) -> bool {
        are_known(&self.rows, layer, from, count)
    }

    fn copy_to(&self, layer: u32, from: u64, count: u64, out: &mut Vec<Hash>) {
        copy_hashes(&self.rows, layer, from, count, out);
    }

    fn reserve(&mut self, layer: u32, from: u64, count: u64) -> Result<(), NoMemory> {
        if count == 0 {
            return Ok(());
        }
        let places = PAGE_LENGTH as u64;
        let first = from / places;
        let end = (from + count - 1) / places + 1;
        add_rows(self.alloc, &mut self.rows, layer as usize)?;
        add_pages(&mut self.rows, layer as usize, first, end)
    }

    fn put(&mut self, layer: u32, index: u64, hash: Hash) {
        write_cell(&mut self.rows, layer, index, hash, false);
    }

    fn mark(&mut self, index: u64) {
        if let Some(hash) = read_cell(&self.rows, 0, index).hash() {
            write_cell(&mut self.rows, 0, index, hash, true);
        }
    }

    fn is_marked(&self, index: u64) -> bool {
        read_cell(&self.rows, 0, index).is_marked()
    }

    fn trim(&mut self) {
        trim_rows(&mut self.rows);
    }

    fn pages(&self) -> u64 {
        count_pages(&self.rows)
    }
}

// The cell of a place; an empty one if there is no page.
fn read_cell(rows: &[PagedRow], layer: u32, index: u64) -> Cell
    ensures { result ≡ cell_at rows.now layer index }
{
    let layer = layer as usize;
    if layer < rows.len() {
        rows[layer].cell(index)
    } else {
        Cell::Empty
    }
}

// Whether the hashes of `count` places of a layer are known, from one on.
fn are_known(rows: &[PagedRow], layer: u32, from: u64, count: u64) -> bool
    requires { from + count < 2 ^ 64 }
    ensures { IsTrue result ↔ AreKnown (hashes rows.now layer) from count }
{
    let layer = layer as usize;
    if layer < rows.len() {
        rows[layer].knows(from, count)
    } else {
        count == 0
    }
}

// Appends the hashes of `count` known places of a layer, from one on, to a list that has room.
fn copy_hashes(rows: &[PagedRow], layer: u32, from: u64, count: u64, out: &mut Vec<Hash>)
    requires range { from + count < 2 ^ 64 }
    requires known { AreKnown (hashes rows.now layer) from count }
    requires room { vec_len out.old + count ≤ vec_capacity out.old }
    ensures copied { out.new.items
        ≡ out.old.items ++ hashes_from (hashes rows.now layer) from count }
    ensures no_memory { vec_capacity out.new ≡ vec_capacity out.old }
{
    let layer = layer as usize;
    if layer < rows.len() {
        rows[layer].copy_to(from, count, out);
    }
}

// Writes the hash of a place that has a page, and marks it, if `mark` says so.
fn write_cell(rows: &mut Vec<PagedRow>, layer: u32, index: u64, hash: Hash, mark: bool)
    requires page { IsSome (page_at rows.old.items layer (index / page_length)) }
    ensures here { cell_at rows.new.items layer index
        ≡ with_hash (cell_at rows.old.items layer index) hash mark }
    ensures others { AreSamePagedCellsBut layer index rows.old.items rows.new.items }
    ensures keeps { KeepPages rows.old.items rows.new.items }
    ensures same { AreAsMany rows.old.items rows.new.items }
    ensures len { vec_len rows.new ≡ vec_len rows.old }
{
    let layer = layer as usize;
    if layer < rows.len() {
        let row = &mut rows[layer];
        row.put(index, hash, mark);
    }
}

// Makes rows up to that of a layer.
fn add_rows(alloc: Global, rows: &mut Vec<PagedRow>, layer: usize) -> Result<(), NoMemory>
    ensures pages { (l n : ℕ) → page_at rows.new.items l n ≡ page_at rows.old.items l n }
    ensures same { AreAsMany rows.old.items rows.new.items }
    ensures most { (vec_len rows.new ≤ layer + 1) ⊎ (vec_len rows.new ≡ vec_len rows.old) }
    ensures there { OnOk result (layer < vec_len rows.new) }
    ensures no_memory { layer < vec_len rows.old → IsOk result }
{
    'rows: while rows.len() <= layer {
        rows.push(PagedRow::new(alloc))?;
    }
    Ok(())
}

// Makes the pages of a layer from one number on up to another that are not there, all or none.
fn add_pages(rows: &mut Vec<PagedRow>, layer: usize, first: u64, end: u64) -> Result<(), NoMemory>
    requires layer { layer < vec_len rows.old }
    requires end { end ≤ 2 ^ 32 }
    ensures cells { AreSamePagedCells rows.old.items rows.new.items }
    ensures keeps { KeepPages rows.old.items rows.new.items }
    ensures len { vec_len rows.new ≡ vec_len rows.old }
    ensures there { OnOk result (HasPages rows.new.items layer first end) }
    ensures few { OnOk result (GrowsBy layer (end - first) rows.old.items rows.new.items) }
    ensures refused { OnErr result (AreAsMany rows.old.items rows.new.items) }
    ensures no_memory { HasPages rows.old.items layer first end → IsOk result }
{
    let row = &mut rows[layer];
    row.reserve(first, end)
}

// Gives back the pages that hold nothing.
fn trim_rows(rows: &mut Vec<PagedRow>)
    ensures cells { AreSamePagedCells rows.old.items rows.new.items }
    ensures len { vec_len rows.new ≡ vec_len rows.old }
    ensures trimmed { AreTrimmed rows.new.items (vec_len rows.new) }
    ensures few { AreNotMore rows.old.items rows.new.items }
{
    'rows: for layer in 0..rows.len() {
        let row = &mut rows[layer];
        row.trim();
    }
}

// How many pages there are.
fn count_pages(rows: &[PagedRow]) -> u64
    requires { length rows.now ≤ most_layers }
    ensures { result ≡ held_pages rows.now }
{
    let mut count = 0;
    'rows: for layer in 0..rows.len() {
        count += rows[layer].len();
    }
    count
}
