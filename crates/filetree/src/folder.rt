//! The folders on the way to a file.

ghost use Rattle.std.specs.Prelude.{◌≡◌, ◌+◌, ◌≤◌, ◌++◌, ◌∷◌, [], length, IfOk};
ghost use Rattle.filetree.specs.Folders.{names_to, names_of};

use crate::folder_name::FolderName;
use crate::path_parts::PathParts;
use std::alloc::{AllocError, Global};
use std::marker::Model;
use std::sync::Arc;

// A folder, and the folders that it lies in, which it shares with those beside it.
#[derive(Drop)]
struct TreeFolder {
    above: Option<Arc<TreeFolder>>,
    name: FolderName,
}

/// The folders from the torrent's root down to one of them. Contracts see them as their names.
#[derive(Drop)]
pub(crate) struct Folders {
    last: Option<Arc<TreeFolder>>,
}

impl Model for Folders {
    ghost use Rattle.std.specs.Prelude.{ℕ, List};
    ghost use Rattle.filetree.specs.Folders.{names_of};

    ghost Value = { List (List ℕ) };

    ghost view = { λ f. names_of f.last };
}

impl Folders {
    /// The torrent's root.
    pub(crate) fn root() -> Folders
        ensures { result ≡ [] }
    {
        Folders { last: None }
    }

    /// The folder `name` below this one.
    pub(crate) fn join(&self, alloc: Global, name: &str) -> Result<Folders, AllocError>
        ensures { IfOk result (λ f. f ≡ self.now ++ name.now ∷ []) }
    {
        let above = shared(&self.last)?;
        let name = FolderName::of(alloc, name)?;
        let last = Arc::new(alloc, TreeFolder { above, name })?;
        Ok(Folders { last: Some(last) })
    }

    /// The same folders.
    pub(crate) fn share(&self) -> Result<Folders, AllocError>
        ensures { IfOk result (λ f. f ≡ self.now) }
    {
        Ok(Folders {
            last: shared(&self.last)?,
        })
    }

    /// Puts their names at the end.
    pub(crate) fn put<'p>(&'p self, parts: &mut PathParts<'p>)
        requires { length parts.old + length self.now ≤ 128 }
        ensures { parts.new ≡ parts.old ++ self.now }
    {
        if let Some(last) = &self.last {
            put(last, parts);
        }
    }
}

// One more owner of a folder and those above it.
fn shared(last: &Option<Arc<TreeFolder>>) -> Result<Option<Arc<TreeFolder>>, AllocError>
    ensures { IfOk result (λ copy. names_of copy ≡ names_of last.now) }
{
    match last {
        Some(last) => Ok(Some(last.clone()?)),
        None => Ok(None),
    }
}

// Puts the names down to this folder at the end.
fn put<'p>(last: &'p TreeFolder, parts: &mut PathParts<'p>)
    requires { length parts.old + length (names_to last.now) ≤ 128 }
    ensures { parts.new ≡ parts.old ++ names_to last.now }
{
    if let Some(above) = &last.above {
        put(above, parts);
    }
    parts.push(last.name.as_str());
}
