//! What the calls are given.
ghost use Rattle.std.specs.Prelude.{◌<◌};

use folders::memory::MemFile;
use opening::Torrent;

/// A torrent of the files `a` and `c`, its text, a record, the contents of the files, and how many
/// bytes a read of a file gives at most.
#[derive(Drop)]
pub(crate) struct World<'t, 'a> {
    pub(crate) text: &'a [u8],
    pub(crate) torrent: &'t Torrent<'a>,
    pub(crate) record: &'a [u8],
    pub(crate) a: &'a [u8],
    pub(crate) c: &'a [u8],
    pub(crate) at_most: usize,
    ghost some: { 0 < at_most },
}

impl<'t, 'a> World<'t, 'a> {
    /// The two files, the first one without its last byte.
    pub(crate) fn damaged(&self) -> [MemFile<'a>; 2] {
        let front = match self.a.split_last() {
            Some((_, front)) => front,
            None => self.a,
        };
        [MemFile::new(&["a"], front), MemFile::new(&["c"], self.c)]
    }

    /// The two files.
    pub(crate) fn files(&self) -> [MemFile<'a>; 2] {
        [MemFile::new(&["a"], self.a), MemFile::new(&["c"], self.c)]
    }
}
