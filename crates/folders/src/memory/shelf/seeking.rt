//! Files of a shelf in memory that are opened at a place.

use super::{MemShelf, find};
use crate::shelf::SeekShelf;
use benc::DeviceFault;
use benc::memory::MemSource;

impl<'a> SeekShelf for MemShelf<'a> {
    ghost use Rattle.folders.specs.MemShelfCalls.{seen_of};
    ghost use Rattle.folders.specs.MemShelfSeeking.{OpensFileAt};

    ghost opens_at = { λ s path offset r t. OpensFileAt (seen_of s) path offset r (seen_of t) };

    fn open_at(
        &mut self,
        path: &[&str],
        offset: u64,
    ) -> Result<Option<MemSource<'a>>, DeviceFault> {
        self.opened = self.opened.wrapping_add(1);
        self.calls.next()?;
        match find(self.files, path) {
            Some(file) => Ok(Some(file.from_byte(offset).source(self.at_most))),
            None => Ok(None),
        }
    }
}
