//! A shelf without the files that are left out.
ghost use Rattle.std.specs.Prelude.{◌≡◌, IfOk, map};
ghost use Rattle.std.specs.List.{filter};
ghost use Rattle.globs.specs.Globs.{whole_of};
ghost use Rattle.folders.specs.Shelf.{path_bytes};
ghost use Rattle.excluding.specs.Excluding.{is_kept};

use benc::DeviceFault;
use folders::{Shelf, ShelfFault};
use globs::{Glob, is_left_out};
use std::alloc::{AllocError, Global};
use std::mem;

/// A shelf whose listing leaves out the files that one of some globs matches, or a folder above
/// them. What is left out can still be opened. The listing fails as that of the shelf inside does,
/// also for what has a path that would be left out.
#[derive(Drop)]
pub struct Excluding<'g, S: Shelf> {
    shelf: S,
    alloc: Global,
    globs: &'g [Glob],
}

impl<'g, S: Shelf> Excluding<'g, S> {
    /// This shelf, without what these globs leave out.
    pub fn new(alloc: Global, shelf: S, globs: &'g [Glob]) -> Excluding<'g, S>
        ensures shelf { result.shelf ≡ shelf }
        ensures globs { result.globs.now ≡ globs.entry.now }
    {
        Excluding {
            shelf,
            alloc,
            globs,
        }
    }

    /// The shelf inside.
    pub fn into_inner(self) -> S
        ensures { result ≡ self.entry.shelf }
    {
        self.shelf
    }
}

// These paths, without those that are left out.
fn kept(
    alloc: Global,
    globs: &[Glob],
    mut paths: Vec<Vec<String>>,
) -> Result<Vec<Vec<String>>, AllocError>
    ensures { IfOk result (λ kept. map path_bytes kept.items
        ≡ filter (is_kept (map whole_of globs.now)) (map path_bytes paths.items)) }
{
    let mut row = Vec::new(alloc);
    let mut kept = Vec::with_capacity(alloc, paths.len())?;
    'paths: for number in 0..paths.len() {
        if !is_left_out(alloc, globs, &mut row, &paths[number])? {
            let path = mem::replace(&mut paths[number], Vec::new(alloc));
            kept.push_reserved(path);
        }
    }
    Ok(kept)
}

impl<'g, S: Shelf> Shelf for Excluding<'g, S> {
    type File = S::File;

    ghost use Rattle.excluding.specs.Excluding.{ListsWithout, contents_without};
    ghost use Rattle.std.specs.Prelude.{map};
    ghost use Rattle.globs.specs.Globs.{whole_of};

    ghost contents = { λ s. contents_without (map whole_of s.globs.now) (S.contents s.shelf) };

    ghost lists = { λ s answer t. ListsWithout S.lists (map whole_of s.globs.now) s.shelf answer
        t.shelf };

    ghost opens = { λ s path answer t. S.opens s.shelf path answer t.shelf };

    ghost closes = { λ s file t. S.closes s.shelf file t.shelf };

    ghost faults = { λ s. S.faults s.shelf };

    fn list(&mut self) -> Result<Vec<Vec<String>>, ShelfFault> {
        let paths = self.shelf.list()?;
        Ok(kept(self.alloc, self.globs, paths)?)
    }

    fn open(&mut self, path: &[&str]) -> Result<Option<Self::File>, DeviceFault> {
        self.shelf.open(path)
    }

    fn close(&mut self, file: Self::File) {
        self.shelf.close(file)
    }

    fn failures(&self) -> u64 {
        self.shelf.failures()
    }
}
