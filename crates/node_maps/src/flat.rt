//! A partial tree in flat rows: for each layer a row of cells, and a mark beside each leaf.

ghost use Rattle.std.specs.Prelude.{◌≡◌, ℕ, ◌+◌, ◌-◌, ◌^◌, ◌<◌, ◌≤◌, ◌≢◌, ◌⊎◌, ◌++◌, ◌↔◌, Some, None, true, length, slice_index_or, set, IsOk, IsTrue, OnOk, vec_len};
ghost use Rattle.std.specs.Vec.{vec_capacity};
ghost use Rattle.std.specs.FinMap.{insert};
ghost use Rattle.node_maps.specs.Places.{tree_height, IsTreePlace};
ghost use Rattle.node_maps.specs.Known.{tabulate, within};
ghost use Rattle.node_maps.specs.Nodes.{nodes};
ghost use Rattle.node_maps.specs.Needed.{nothing_needed};
ghost use Rattle.node_maps.specs.Flat.{AreSameFlatCells, AreSameFlatCellsBut, FlatRow, cells, row_cells, HasCell, HasTreeCells, hash_in_row, marked_leaves};
ghost use Rattle.node_maps.specs.Runs.{AreKnown, hashes_from};

use crate::node_map::NodeMap;
use hashtree::{Hash, NoMemory, Shape};
use std::alloc::Global;

/// The known nodes in a row of cells for each layer, as long as was reserved, and the marked
/// leaves. It holds no pages.
#[derive(Drop)]
pub struct Flat {
    alloc: Global,
    shape: Shape,
    height: u32,
    rows: Vec<Vec<Option<Hash>>>,
    marks: Vec<bool>,
    ghost is_height: { height ≡ tree_height shape },
    ghost low: { height ≤ 32 },
    ghost in_tree: { HasTreeCells height rows.items },
    ghost leaves_have_marks: { row_cells rows.items 0 ≤ vec_len marks },
}

impl NodeMap for Flat {
    ghost seen = { λ f. nodes f.shape (tabulate f.height (within f.height (cells f.rows.items)))
        (marked_leaves f.marks.items) };

    ghost held = { λ _. 0 };

    ghost needed = { λ _. 0 };

    ghost has_room = { λ f l i. HasCell f.rows.items l i };

    ghost needs_few = { nothing_needed };

    fn empty(alloc: Global, shape: Shape) -> Flat {
        Flat {
            alloc,
            shape,
            height: shape.height(),
            rows: Vec::new(alloc),
            marks: Vec::new(alloc),
        }
    }

    fn get(&self, layer: u32, index: u64) -> Option<Hash> {
        read_cell(&self.rows, layer, index)
    }

    fn knows(&self, layer: u32, from: u64, count: u64) -> bool {
        are_known(row_of(&self.rows, layer), from, count)
    }

    fn copy_to(&self, layer: u32, from: u64, count: u64, out: &mut Vec<Hash>) {
        copy_hashes(row_of(&self.rows, layer), from, count, out);
    }

    fn reserve(&mut self, layer: u32, from: u64, count: u64) -> Result<(), NoMemory> {
        if count == 0 {
            return Ok(());
        }
        let layer = layer as usize;
        let end = (from + count) as usize;
        add_marks(&mut self.marks, layer, end)?;
        add_rows(self.alloc, &mut self.rows, layer)?;
        lengthen(&mut self.rows, layer, end)
    }

    fn put(&mut self, layer: u32, index: u64, hash: Hash) {
        put_cell(&mut self.rows, layer, index, hash);
    }

    fn mark(&mut self, index: u64) {
        self.marks[index as usize] = true;
    }

    fn is_marked(&self, index: u64) -> bool {
        let index = index as usize;
        index < self.marks.len() && self.marks[index]
    }

    fn trim(&mut self) {}

    fn pages(&self) -> u64 {
        0
    }
}

// The hash in the cell of a place.
fn read_cell(rows: &[Vec<Option<Hash>>], layer: u32, index: u64) -> Option<Hash>
    ensures { result ≡ cells rows.now layer index }
{
    let layer = layer as usize;
    if layer < rows.len() {
        let row = &rows[layer];
        let index = index as usize;
        if index < row.len() { row[index] } else { None }
    } else {
        None
    }
}

// The cells of a layer.
fn row_of(rows: &[Vec<Option<Hash>>], layer: u32) -> &[Option<Hash>]
    ensures { (i : ℕ) → hash_in_row result.now i ≡ cells rows.now layer i }
{
    let layer = layer as usize;
    if layer < rows.len() {
        &rows[layer]
    } else {
        &[]
    }
}

// Whether `count` cells hold a hash, from one on.
fn are_known(row: &[Option<Hash>], from: u64, count: u64) -> bool
    requires { from + count < 2 ^ 64 }
    ensures { IsTrue result ↔ AreKnown (hash_in_row row.now) from count }
{
    let (from, end) = (from as usize, (from + count) as usize);
    if from == end {
        return true;
    }
    if end > row.len() {
        return false;
    }
    all_hold_hashes(&row[from..end])
}

// Whether each cell holds a hash.
fn all_hold_hashes(row: &[Option<Hash>]) -> bool
    ensures { IsTrue result ↔ AreKnown (hash_in_row row.now) 0 (length row.now) }
{
    'cells: for cell in row {
        if cell.is_none() {
            return false;
        }
    }
    true
}

// Appends the hashes of `count` cells that hold one, from one on, to a list that has room for them.
fn copy_hashes(row: &[Option<Hash>], from: u64, count: u64, out: &mut Vec<Hash>)
    requires range { from + count < 2 ^ 64 }
    requires known { AreKnown (hash_in_row row.now) from count }
    requires room { vec_len out.old + count ≤ vec_capacity out.old }
    ensures copied { out.new.items ≡ out.old.items ++ hashes_from (hash_in_row row.now) from count }
    ensures no_memory { vec_capacity out.new ≡ vec_capacity out.old }
{
    let (from, end) = (from as usize, (from + count) as usize);
    if from < end {
        append_hashes(&row[from..end], out);
    }
}

// Appends the hashes of cells that hold one to a list that has room for them.
fn append_hashes(row: &[Option<Hash>], out: &mut Vec<Hash>)
    requires known { AreKnown (hash_in_row row.now) 0 (length row.now) }
    requires room { vec_len out.old + length row.now ≤ vec_capacity out.old }
    ensures copied { out.new.items
        ≡ out.old.items ++ hashes_from (hash_in_row row.now) 0 (length row.now) }
    ensures no_memory { vec_capacity out.new ≡ vec_capacity out.old }
{
    'cells: for cell in row {
        if let Some(hash) = cell {
            out.push_reserved(*hash);
        }
    }
}

// Writes the hash into the cell of a place.
fn put_cell(rows: &mut Vec<Vec<Option<Hash>>>, layer: u32, index: u64, hash: Hash)
    requires { HasCell rows.old.items layer index }
    ensures here { cells rows.new.items layer index ≡ Some hash }
    ensures others { AreSameFlatCellsBut layer index rows.old.items rows.new.items }
    ensures same { (l : ℕ) → row_cells rows.new.items l ≡ row_cells rows.old.items l }
{
    let row = &mut rows[layer as usize];
    row[index as usize] = Some(hash);
}

// Makes rows up to that of a layer.
fn add_rows(alloc: Global, rows: &mut Vec<Vec<Option<Hash>>>, layer: usize) -> Result<(), NoMemory>
    ensures cells { AreSameFlatCells rows.old.items rows.new.items }
    ensures same { (l : ℕ) → row_cells rows.new.items l ≡ row_cells rows.old.items l }
    ensures there { OnOk result (layer < vec_len rows.new) }
    ensures no_memory { layer < vec_len rows.old → IsOk result }
{
    'rows: while rows.len() <= layer {
        rows.push(Vec::new(alloc))?;
    }
    Ok(())
}

// Makes a row as long as `end`, if it is shorter.
fn lengthen(rows: &mut Vec<Vec<Option<Hash>>>, layer: usize, end: usize) -> Result<(), NoMemory>
    requires { layer < vec_len rows.old }
    ensures cells { AreSameFlatCells rows.old.items rows.new.items }
    ensures others { (l : ℕ) → l ≢ layer → row_cells rows.new.items l ≡ row_cells rows.old.items l }
    ensures longer { row_cells rows.old.items layer ≤ row_cells rows.new.items layer }
    ensures most { (row_cells rows.new.items layer ≤ end)
        ⊎ (row_cells rows.new.items layer ≡ row_cells rows.old.items layer) }
    ensures reaches { OnOk result (end ≤ row_cells rows.new.items layer) }
    ensures no_memory { end ≤ row_cells rows.old.items layer → IsOk result }
{
    let row = &mut rows[layer];
    if row.len() < end {
        row.resize(end, None)?;
    }
    Ok(())
}

// Makes marks up to `end`, none of them set, if the layer is that of the leaves.
fn add_marks(marks: &mut Vec<bool>, layer: usize, end: usize) -> Result<(), NoMemory>
    ensures marked { marked_leaves marks.new.items ≡ marked_leaves marks.old.items }
    ensures longer { vec_len marks.old ≤ vec_len marks.new }
    ensures reaches { OnOk result (layer ≡ 0 → end ≤ vec_len marks.new) }
    ensures no_memory { (layer ≡ 0 → end ≤ vec_len marks.old) → IsOk result }
{
    if layer == 0 && marks.len() < end {
        marks.resize(end, false)?;
    }
    Ok(())
}
