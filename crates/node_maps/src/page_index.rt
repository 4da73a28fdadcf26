//! Pages by their numbers, behind an interface, so that an index can stand on smaller ones: a
//! list of pages, and nodes over such indexes.
ghost use Rattle.std.specs.Prelude.{◌≡◌, ◌↔◌, ℕ, ◌<◌, IsTrue, Some, None, IsSome, OnOk, OnErr, option_map, length};
ghost use Rattle.std.specs.Bool.{OnTrue};
ghost use Rattle.node_maps.specs.Cell.{page_length};
ghost use Rattle.node_maps.specs.Pages.{Numbered, IsChanged, AreAlike, IsPut, find_under, AreInUse};
ghost use Rattle.node_maps.specs.Rising.{AreNumbersRising, page_numbered};

use crate::page::Page;
use crate::search::{insert_reserved, make_room, search};
use hashtree::{Hash, NoMemory};
use std::alloc::Global;

/// Pages by their numbers, however they are kept.
pub(crate) trait PageIndex: Drop {
    /// The page of a number, if there is one.
    ghost find: { Self → Numbered };

    /// How many entries it has itself: pages, or smaller indexes.
    ghost entries: { Self → ℕ };

    /// Each smaller index in it has an entry, and so has each in those.
    ghost in_use: { Self → Type 0 };

    /// No page. It is fast for numbers that differ only in their last `bits` bits, and right for
    /// all. Takes no memory. Condition: `bits` is below 64.
    fn new(alloc: Global, bits: u32) -> Self
    where
        Self: Sized,
        requires { bits < 64 }
        ensures none { (n : ℕ) → find result n ≡ None }
        ensures in_use { in_use result };

    /// The page of a number, if there is one.
    fn page(&self, number: u64) -> Option<&Page>
        ensures { option_map (λ page. page.now) result ≡ find self.now number };

    /// Writes the hash of a place of a page, and marks it, if `mark` says so. Conditions: there is
    /// a page of this number, and the place is below 512.
    fn put(&mut self, number: u64, place: usize, hash: Hash, mark: bool)
        requires there { IsSome (find self.old number) }
        requires place { place < page_length }
        ensures here { IsPut place hash mark (find self.old number) (find self.new number) }
        ensures others { IsChanged number (find self.new number) (find self.old)
            (find self.new) }
        ensures entries { entries self.new ≡ entries self.old }
        ensures in_use { in_use self.old → in_use self.new };

    /// Adds a page of a number that has none. If memory was refused, nothing has changed.
    fn add(&mut self, number: u64, page: Page) -> Result<(), NoMemory>
        requires { find self.old number ≡ None }
        ensures added { OnOk result (IsChanged number (Some page) (find self.old) (find self.new)) }
        ensures unchanged { OnErr result (AreAlike (find self.old) (find self.new)) }
        ensures some { OnOk result (0 < entries self.new) }
        ensures kept { OnErr result (entries self.new ≡ entries self.old) }
        ensures in_use { in_use self.old → in_use self.new };

    /// Gives back the page of a number, if there is one, and with it each smaller index that
    /// has no other. Takes no memory.
    fn remove(&mut self, number: u64)
        ensures gone { IsChanged number None (find self.old) (find self.new) }
        ensures in_use { in_use self.old → in_use self.new };

    /// Whether it has no entry.
    fn is_empty(&self) -> bool
        ensures entries { IsTrue result ↔ (entries self.now ≡ 0) }
        ensures none { OnTrue result ((n : ℕ) → find self.now n ≡ None) };
}

/// Pages in the order of their numbers.
#[derive(Drop)]
pub(crate) struct PageList {
    numbers: Vec<u64>,
    pages: Vec<Page>,
    /// Where the last write was.
    last: usize,
    ghost rising: { AreNumbersRising numbers.items },
    ghost beside: { length pages.items ≡ length numbers.items },
}

impl PageIndex for PageList {
    ghost find = { λ s. page_numbered s.numbers.items s.pages.items };

    ghost entries = { λ s. length s.numbers.items };

    ghost in_use = { λ _. Unit {0} };

    fn new(alloc: Global, _bits: u32) -> PageList {
        PageList {
            numbers: Vec::new(alloc),
            pages: Vec::new(alloc),
            last: 0,
        }
    }

    fn page(&self, number: u64) -> Option<&Page> {
        match search(&self.numbers, self.last, number) {
            Ok(at) => Some(&self.pages[at]),
            Err(_) => None,
        }
    }

    fn put(&mut self, number: u64, place: usize, hash: Hash, mark: bool) {
        if let Ok(at) = search(&self.numbers, self.last, number) {
            self.last = at;
            let page = &mut self.pages[at];
            page.put(place, hash, mark);
        }
    }

    fn add(&mut self, number: u64, page: Page) -> Result<(), NoMemory> {
        make_room(&mut self.numbers, &mut self.pages)?;
        if let Err(at) = search(&self.numbers, self.last, number) {
            insert_reserved(&mut self.numbers, at, number);
            insert_reserved(&mut self.pages, at, page);
            self.last = at;
        }
        Ok(())
    }

    fn remove(&mut self, number: u64) {
        if let Ok(at) = search(&self.numbers, self.last, number) {
            self.numbers.remove(at);
            self.pages.remove(at);
        }
    }

    fn is_empty(&self) -> bool {
        self.numbers.is_empty()
    }
}

// How many bits of a page's number one list goes by. So a list has at most 256 entries, and a new
// page moves no more of them than it takes memory itself.
const BITS: u32 = 8;

/// Smaller indexes in the order of the bits that their pages' numbers begin with.
#[derive(Drop)]
pub(crate) struct PageIndexNode<D: Drop> {
    alloc: Global,
    /// How many bits of a number the smaller indexes are for.
    shift: u32,
    numbers: Vec<u64>,
    lists: Vec<D>,
    /// Where the last write was.
    last: usize,
    ghost low: { shift < 64 },
    ghost rising: { AreNumbersRising numbers.items },
    ghost beside: { length lists.items ≡ length numbers.items },
}

impl<D: PageIndex> PageIndex for PageIndexNode<D> {
    ghost find = { λ s. find_under D.find s.numbers.items s.lists.items s.shift };

    ghost entries = { λ s. length s.numbers.items };

    ghost in_use = { λ s. AreInUse D.entries D.in_use s.lists.items };

    fn new(alloc: Global, bits: u32) -> PageIndexNode<D> {
        PageIndexNode {
            alloc,
            shift: bits.saturating_sub(BITS),
            numbers: Vec::new(alloc),
            lists: Vec::new(alloc),
            last: 0,
        }
    }

    fn page(&self, number: u64) -> Option<&Page> {
        match search(&self.numbers, self.last, number >> self.shift) {
            Ok(at) => self.lists[at].page(number),
            Err(_) => None,
        }
    }

    fn put(&mut self, number: u64, place: usize, hash: Hash, mark: bool) {
        if let Ok(at) = search(&self.numbers, self.last, number >> self.shift) {
            self.last = at;
            let list = &mut self.lists[at];
            list.put(number, place, hash, mark);
        }
    }

    fn add(&mut self, number: u64, page: Page) -> Result<(), NoMemory> {
        match search(&self.numbers, self.last, number >> self.shift) {
            Ok(at) => {
                let list = &mut self.lists[at];
                list.add(number, page)
            }
            Err(at) => {
                make_room(&mut self.numbers, &mut self.lists)?;
                let mut list = D::new(self.alloc, self.shift);
                list.add(number, page)?;
                insert_reserved(&mut self.numbers, at, number >> self.shift);
                insert_reserved(&mut self.lists, at, list);
                Ok(())
            }
        }
    }

    fn remove(&mut self, number: u64) {
        if let Ok(at) = search(&self.numbers, self.last, number >> self.shift) {
            let list = &mut self.lists[at];
            list.remove(number);
            if list.is_empty() {
                self.numbers.remove(at);
                self.lists.remove(at);
            }
        }
    }

    fn is_empty(&self) -> bool {
        self.numbers.is_empty()
    }
}
