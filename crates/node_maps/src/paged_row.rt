//! The pages of one layer, found by their numbers.

ghost use Rattle.std.specs.Prelude.{◌≡◌, ◌≢◌, ℕ, ◌+◌, ◌-◌, ◌*◌, ◌/◌, ◌%◌, ◌^◌, ◌<◌, ◌≤◌, ◌++◌, ◌↔◌, [], Some, None, List, length, option_map, IsSome, IsOk, IsTrue, OnOk, OnErr, max, vec_len};
ghost use Rattle.std.specs.Vec.{vec_capacity};
ghost use Rattle.node_maps.specs.Cell.{page_length, with_hash};
ghost use Rattle.node_maps.specs.Pages.{Numbered, is_spare, AreAlike, AreSpare, AreCounted};
ghost use Rattle.node_maps.specs.PageIndexes.{on_rows, AreRowsInUse};
ghost use Rattle.node_maps.specs.Growth.{IsGrown, IsGrownByOne};
ghost use Rattle.node_maps.specs.Runs.{AreKnown, hashes_from};

use crate::page::{Cell, PAGE_LENGTH, Page};
use crate::page_index::{PageIndex, PageIndexNode, PageList};
use hashtree::{Hash, NoMemory};
use std::alloc::Global;

// How many bits the number of a page has at most: a layer has up to 2^32 places.
const NUMBER_BITS: u32 = 24;

/// The pages of one layer. Page p holds the places from 512 p on. Pages that hold nothing are among
/// the fresh ones. No list is kept without a page.
#[derive(Drop)]
pub(crate) struct PagedRow {
    alloc: Global,
    pages: PageIndexNode<PageIndexNode<PageList>>,
    fresh: Vec<u64>,
    count: u64,
    ghost counted: { AreCounted (on_rows pages) count },
    ghost spare: { AreSpare (on_rows pages) fresh.items },
    ghost in_use: { AreRowsInUse pages },
}

impl PagedRow {
    ghost use Rattle.node_maps.specs.PagedRow.{pages_of, AreSameRowCells, AreSameRowCellsBut, HasRowPage, HasRowPages, KeepsRowPages, cell_of_row, row_hashes};

    /// No page.
    #[tactic(auto, unfolding(crate::specs::PagedRow::pages_of))]
    pub(crate) fn new(alloc: Global) -> PagedRow
        ensures pages { (n : ℕ) → pages_of result n ≡ None }
        ensures count { result.count ≡ 0 }
    {
        PagedRow {
            alloc,
            pages: PageIndex::new(alloc, NUMBER_BITS),
            fresh: Vec::new(alloc),
            count: 0,
        }
    }

    /// How many pages there are.
    #[tactic(auto, unfolding(crate::specs::PagedRow::pages_of))]
    pub(crate) fn len(&self) -> u64
        ensures value { result ≡ self.now.count }
        ensures small { result ≤ 2 ^ 32 }
    {
        self.count
    }

    /// The cell of a place; an empty one if there is no page.
    #[tactic(auto, unfolding(crate::specs::PagedRow::pages_of))]
    pub(crate) fn cell(&self, index: u64) -> Cell
        ensures { result ≡ cell_of_row self.now index }
    {
        match self.pages.page(index / PAGE_LENGTH as u64) {
            Some(page) => page.cell((index % PAGE_LENGTH as u64) as usize),
            None => Cell::Empty,
        }
    }

    /// Whether the hashes of `count` places are known, from one on. Condition: `from + count` is
    /// below 2^64.
    #[tactic(auto, unfolding(crate::specs::PagedRow::pages_of))]
    pub(crate) fn knows(&self, from: u64, count: u64) -> bool
        requires { from + count < 2 ^ 64 }
        ensures { IsTrue result ↔ AreKnown (row_hashes self.now) from count }
    {
        let mut done = 0;
        'parts: while done < count {
            let part = PagePart::first_of(from + done, count - done);
            let Some(page) = self.pages.page(part.number) else {
                return false;
            };
            if !page.knows(part.first, part.count) {
                return false;
            }
            done += part.count as u64;
        }
        true
    }

    /// Appends the hashes of `count` known places, from one on, to a list that has room for them.
    /// Condition: `from + count` is below 2^64.
    #[tactic(auto, unfolding(crate::specs::PagedRow::pages_of))]
    pub(crate) fn copy_to(&self, from: u64, count: u64, out: &mut Vec<Hash>)
        requires range { from + count < 2 ^ 64 }
        requires known { AreKnown (row_hashes self.now) from count }
        requires room { vec_len out.old + count ≤ vec_capacity out.old }
        ensures copied { out.new.items
            ≡ out.old.items ++ hashes_from (row_hashes self.now) from count }
        ensures no_memory { vec_capacity out.new ≡ vec_capacity out.old }
    {
        let mut done = 0;
        'parts: while done < count {
            let part = PagePart::first_of(from + done, count - done);
            if let Some(page) = self.pages.page(part.number) {
                page.copy_to(part.first, part.count, out);
            }
            done += part.count as u64;
        }
    }

    /// Writes the hash of a place that has a page, and marks it, if `mark` says so. A mark that is
    /// there stays.
    #[tactic(auto, unfolding(crate::specs::PagedRow::pages_of))]
    pub(crate) fn put(&mut self, index: u64, hash: Hash, mark: bool)
        requires { HasRowPage self.old (index / page_length) }
        ensures count { self.new.count ≡ self.old.count }
        ensures here { cell_of_row self.new index
            ≡ with_hash (cell_of_row self.old index) hash mark }
        ensures others { AreSameRowCellsBut index self.old self.new }
        ensures same { KeepsRowPages self.old self.new }
    {
        let place = (index % PAGE_LENGTH as u64) as usize;
        self.pages
            .put(index / PAGE_LENGTH as u64, place, hash, mark);
    }

    /// Makes the pages from one number on up to another that are not there, all or none of them.
    /// What there is stays. Condition: `end` is at most 2^32.
    #[tactic(auto, unfolding(crate::specs::PagedRow::pages_of))]
    pub(crate) fn reserve(&mut self, first: u64, end: u64) -> Result<(), NoMemory>
        requires { end ≤ 2 ^ 32 }
        ensures cells { AreSameRowCells self.old self.new }
        ensures keeps { KeepsRowPages self.old self.new }
        ensures there { OnOk result (HasRowPages self.new first end) }
        ensures few { OnOk result (self.new.count ≤ self.old.count + (end - first)) }
        ensures refused { OnErr result (self.new.count ≡ self.old.count) }
        ensures no_memory { HasRowPages self.old first end → IsOk result }
    {
        let before = self.fresh.len();
        'numbers: for number in first..end {
            if let Err(refused) = self.make(number) {
                self.give_back(before);
                return Err(refused);
            }
        }
        Ok(())
    }

    // Makes the page of a number, unless it is there. If memory was refused, nothing has changed.
    #[tactic(auto, unfolding(crate::specs::PagedRow::pages_of))]
    fn make(&mut self, number: u64) -> Result<(), NoMemory>
        requires { number < 2 ^ 32 }
        ensures cells { AreSameRowCells self.old self.new }
        ensures keeps { KeepsRowPages self.old self.new }
        ensures grown { IsGrownByOne (pages_of self.old) self.old.fresh.items self.old.count
            (pages_of self.new) self.new.fresh.items self.new.count }
        ensures there { OnOk result (HasRowPage self.new number) }
        ensures few { self.new.count ≤ self.old.count + 1 }
        ensures room { vec_capacity self.new.fresh
            ≤ max (vec_capacity self.old.fresh) (2 * vec_len self.old.fresh + 4) }
        ensures no_memory { HasRowPage self.old number → IsOk result }
    {
        if self.pages.page(number).is_some() {
            return Ok(());
        }
        reserve_one(&mut self.fresh)?;
        let page = Page::blank(self.alloc)?;
        self.pages.add(number, page)?;
        self.fresh.push_reserved(number);
        self.count += 1;
        Ok(())
    }

    /// Gives back the pages that hold nothing.
    #[tactic(auto, unfolding(crate::specs::PagedRow::pages_of))]
    pub(crate) fn trim(&mut self)
        ensures cells { AreSameRowCells self.old self.new }
        ensures full { AreSpare (pages_of self.new) [] }
        ensures few { self.new.count ≤ self.old.count }
    {
        self.give_back(0);
    }

    // Gives back the pages that hold nothing and that were made since this many were fresh.
    #[tactic(auto, unfolding(crate::specs::PagedRow::pages_of))]
    fn give_back(&mut self, before: usize)
        ensures cells { AreSameRowCells self.old self.new }
        ensures fresh { length self.new.fresh.items ≤ before }
        ensures few { self.new.count ≤ self.old.count }
        ensures restored { (base : Numbered) (fresh : List ℕ) (count : ℕ) → length fresh ≡ before
            → IsGrown base fresh count (pages_of self.old) self.old.fresh.items self.old.count
            → AreAlike base (pages_of self.new) × (self.new.count ≡ count) }
    {
        'fresh: while self.fresh.len() > before {
            let Some(number) = self.fresh.pop() else {
                unreachable!();
            };
            if is_spare(self.pages.page(number)) {
                self.pages.remove(number);
                self.count -= 1;
            }
        }
    }
}

// Places side by side on one page.
#[derive(Clone, Copy)]
struct PagePart {
    number: u64,
    first: usize,
    count: usize,
}

impl PagePart {
    // What of `count` places, from one on, is on the page of the first.
    fn first_of(from: u64, count: u64) -> PagePart
        requires { 0 < count }
        ensures number { result.number ≡ from / page_length }
        ensures first { result.first ≡ from % page_length }
        ensures some { 0 < result.count }
        ensures most { result.count ≤ count }
        ensures inside { result.first + result.count ≤ page_length }
    {
        let first = from % PAGE_LENGTH as u64;
        PagePart {
            number: from / PAGE_LENGTH as u64,
            first: first as usize,
            count: (PAGE_LENGTH as u64 - first).min(count) as usize,
        }
    }
}

// Whether there is a page, and it holds nothing.
fn is_spare(page: Option<&Page>) -> bool
    ensures { result ≡ is_spare (option_map (λ page. page.now) page.entry) }
{
    match page {
        Some(page) => page.is_blank(),
        None => false,
    }
}

// Makes room for one more number. If there is none, it makes room for as many more as there are,
// and for four at least.
fn reserve_one(numbers: &mut Vec<u64>) -> Result<(), NoMemory>
    ensures items { numbers.new.items ≡ numbers.old.items }
    ensures len { vec_len numbers.new ≡ vec_len numbers.old }
    ensures one { OnOk result (vec_len numbers.new < vec_capacity numbers.new) }
    ensures room { vec_capacity numbers.new
        ≤ max (vec_capacity numbers.old) (2 * vec_len numbers.old + 4) }
{
    if numbers.len() == numbers.capacity() {
        numbers.reserve_exact(numbers.len().max(4))?;
    }
    Ok(())
}
