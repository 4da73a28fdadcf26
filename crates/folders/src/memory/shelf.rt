//! A shelf over memory: it counts its openings, and fails at a set call.
ghost use Rattle.std.specs.Prelude.{◌≡◌, ◌-◌, ◌^◌, ◌<◌, [], map, Some, None, option_map, IfOk, true, false};
ghost use Rattle.folders.specs.MemShelf.{first_with, path_of};
ghost use Rattle.folders.specs.Shelf.{IsEachOnce, path_bytes};

mod seeking;

use crate::memory::file::MemFile;
use crate::shelf::Shelf;
use crate::shelf_fault::ShelfFault;
use benc::memory::{Calls, MemSource};
use benc::{DeviceFault, Source};
use std::alloc::{AllocError, Global};

/// A shelf that holds these files. Of two with one path it holds the first.
#[derive(Drop)]
pub struct MemShelf<'a> {
    alloc: Global,
    files: &'a [MemFile<'a>],
    has_odd_name: bool,
    specials: &'a [&'a [&'a str]],
    at_most: usize,
    calls: Calls,
    opened: u64,
    ghost some: { 0 < at_most },
}

impl<'a> MemShelf<'a> {
    ghost use Rattle.folders.specs.MemShelfCalls.{seen_of};

    /// A shelf whose calls never fail, and whose files give as many bytes a call as there is room
    /// for.
    pub fn new(alloc: Global, files: &'a [MemFile<'a>]) -> MemShelf<'a>
        ensures { seen_of result ≡ record {
          files = files.entry.now;
          has_odd_name = false;
          specials = [];
          at_most = 2 ^ 64 - 1;
          before_fault = None;
          faults = 0;
          openings = 0;
        } }
    {
        MemShelf {
            alloc,
            files,
            has_odd_name: false,
            specials: &[],
            at_most: usize::MAX,
            calls: Calls::that_succeed(),
            opened: 0,
        }
    }

    /// There is a name too that is not UTF-8.
    pub fn with_odd_name(mut self) -> MemShelf<'a>
        ensures { seen_of result ≡ record (seen_of self.entry) { has_odd_name = true } }
    {
        self.has_odd_name = true;
        self
    }

    /// Under these paths stands what is neither a regular file nor a folder.
    pub fn with_specials(self, paths: &'a [&'a [&'a str]]) -> MemShelf<'a>
        ensures { seen_of result ≡ record (seen_of self.entry) {
          specials = map (λ p. map (λ c. c.now) p.now) paths.entry.now;
        } }
    {
        MemShelf {
            alloc: self.alloc,
            files: self.files,
            has_odd_name: self.has_odd_name,
            specials: paths,
            at_most: self.at_most,
            calls: self.calls,
            opened: self.opened,
        }
    }

    /// From here on each read of a file gives at most `count` bytes. Condition: `count` is at least
    /// 1.
    pub fn at_most(mut self, count: usize) -> MemShelf<'a>
        requires { 0 < count }
        ensures { seen_of result ≡ record (seen_of self.entry) { at_most = count } }
    {
        self.at_most = count;
        self
    }

    /// The next `calls` calls of `list` and `open` succeed, and the one after them fails. Later
    /// ones succeed.
    pub fn fails_after(mut self, calls: u64) -> MemShelf<'a>
        ensures { seen_of result ≡ record (seen_of self.entry) { before_fault = Some calls } }
    {
        self.calls.fail_after(calls);
        self
    }

    /// How often `open` was called, modulo 2^64.
    pub fn openings(&self) -> u64
        ensures { result ≡ (seen_of self.now).openings }
    {
        self.opened
    }
}

impl<'a> Shelf for MemShelf<'a> {
    type File = MemSource<'a>;

    ghost use Rattle.folders.specs.MemShelfCalls.{Closes, Lists, OpensFile, seen_of, shelf_contents_of};

    ghost contents = { λ s. shelf_contents_of (seen_of s) };

    ghost lists = { λ s r t. Lists (seen_of s) r (seen_of t) };

    ghost opens = { λ s path r t. OpensFile (seen_of s) path r (seen_of t) };

    ghost closes = { λ s file t. Closes (seen_of s) file (seen_of t) };

    ghost faults = { λ s. (seen_of s).faults };

    fn list(&mut self) -> Result<Vec<Vec<String>>, ShelfFault> {
        if self.calls.next().is_err() {
            return Err(ShelfFault::Device);
        }
        if self.has_odd_name {
            return Err(ShelfFault::Name);
        }
        match self.specials.first() {
            Some(path) => Err(ShelfFault::Special(owned(self.alloc, path)?)),
            None => Ok(paths_of(self.alloc, self.files)?),
        }
    }

    fn open(&mut self, path: &[&str]) -> Result<Option<MemSource<'a>>, DeviceFault> {
        self.opened = self.opened.wrapping_add(1);
        self.calls.next()?;
        match find(self.files, path) {
            Some(file) => Ok(Some(file.source(self.at_most))),
            None => Ok(None),
        }
    }

    fn close(&mut self, file: MemSource<'a>) {
        self.calls.faults = self.calls.faults.wrapping_add(file.failures());
    }

    fn failures(&self) -> u64 {
        self.calls.faults
    }
}

// The first of the files that has this path.
fn find<'f, 'a>(files: &'f [MemFile<'a>], path: &[&str]) -> Option<&'f MemFile<'a>>
    ensures { option_map (λ f. f.now) result ≡ first_with (map (λ s. s.now) path.now) files.now }
{
    files.iter().find(|file| file.has_path(path))
}

// A path of one's own.
fn owned(alloc: Global, path: &[&str]) -> Result<Vec<String>, AllocError>
    ensures { IfOk result (λ owned. path_bytes owned ≡ map (λ s. s.now) path.now) }
{
    let mut owned = Vec::new(alloc);
    'parts: for part in path {
        owned.push(String::from_str(alloc, part)?)?;
    }
    Ok(owned)
}

// Each path that one of the files has, once.
fn paths_of(alloc: Global, files: &[MemFile<'_>]) -> Result<Vec<Vec<String>>, AllocError>
    ensures { IfOk result (λ paths.
        IsEachOnce (map path_of files.now) (map path_bytes paths.items)) }
{
    let mut paths = Vec::new(alloc);
    'files: for i in 0..files.len() {
        if find(&files[..i], files[i].path).is_none() {
            paths.push(owned(alloc, files[i].path)?)?;
        }
    }
    Ok(paths)
}
