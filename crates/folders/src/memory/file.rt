//! A file of a shelf in memory.
ghost use Rattle.std.specs.Prelude.{◌≡◌, ◌<◌, drop, map, Some, None};
ghost use Rattle.folders.specs.MemShelf.{path_of};
ghost use Rattle.folders.specs.Shelf.{is_path};

use benc::memory::MemSource;

/// A file of a shelf in memory.
#[derive(Clone, Copy, Drop)]
pub struct MemFile<'a> {
    pub(crate) path: &'a [&'a str],
    content: &'a [u8],
    before_fault: Option<u64>,
}

impl<'a> MemFile<'a> {
    ghost use Rattle.folders.specs.MemShelfCalls.{IsSourceOf};

    /// A file with these path components and these bytes, whose reads never fail.
    pub fn new(path: &'a [&'a str], content: &'a [u8]) -> MemFile<'a>
        ensures path { path_of result ≡ map (λ s. s.now) path.entry.now }
        ensures content { result.content.now ≡ content.entry.now }
        ensures succeeds { result.before_fault ≡ None }
    {
        MemFile {
            path,
            content,
            before_fault: None,
        }
    }

    /// Each time it is opened, the first `calls` reads succeed, and the next one fails and gives
    /// nothing. Later ones succeed.
    pub fn fails_after(mut self, calls: u64) -> MemFile<'a>
        ensures fails { result.before_fault ≡ Some calls }
        ensures path { path_of result ≡ path_of self.entry }
        ensures content { result.content.now ≡ self.entry.content.now }
    {
        self.before_fault = Some(calls);
        self
    }

    /// Whether this is its path.
    pub(crate) fn has_path(&self, path: &[&str]) -> bool
        ensures { result ≡ is_path (map (λ s. s.now) path.now) (path_of self.now) }
    {
        path == self.path
    }

    /// The file without the bytes before this one; empty if it has no more.
    pub(crate) fn from_byte(&self, offset: u64) -> MemFile<'a>
        ensures content { result.content.now ≡ drop offset self.now.content.now }
        ensures fails { result.before_fault ≡ self.now.before_fault }
    {
        let start = offset.min(self.content.len() as u64) as usize;
        MemFile {
            path: self.path,
            content: &self.content[start..],
            before_fault: self.before_fault,
        }
    }

    /// The file opened, whose reads give at most `at_most` bytes. Condition: that is at least 1.
    pub(crate) fn source(&self, at_most: usize) -> MemSource<'a>
        requires { 0 < at_most }
        ensures { IsSourceOf self.now at_most result }
    {
        let source = MemSource::new(self.content).at_most(at_most);
        match self.before_fault {
            Some(calls) => source.fails_after(calls),
            None => source,
        }
    }
}
