//! The path of a file: its components.

ghost use Rattle.std.specs.Prelude.{◌≡◌, ◌<◌, ◌++◌, ◌∷◌, [], length};

use crate::folder::Folders;
use crate::path_parts::PathParts;
use std::marker::Model;

/// A file's path below the torrent's root. Contracts see it as the list of its components.
#[derive(Drop)]
pub struct Path<'a> {
    folders: Folders,
    name: &'a str,
}

impl<'a> Model for Path<'a> {
    ghost use Rattle.std.specs.Prelude.{ℕ, ◌<◌, ◌++◌, ◌∷◌, [], List, length};

    ghost Value = { List (List ℕ) };

    ghost view = { λ p. p.folders ++ p.name.now ∷ [] };

    ghost invariant = { λ p. length p.folders < 128 };
}

impl<'a> Path<'a> {
    /// The file `name` in the last of these folders.
    pub(crate) fn new(folders: Folders, name: &'a str) -> Path<'a>
        requires { length folders < 128 }
        ensures { result ≡ folders ++ name.now ∷ [] }
    {
        Path { folders, name }
    }

    /// The components. It takes no memory from the allocator.
    pub fn parts(&self) -> PathParts<'_>
        ensures { result ≡ self.now }
    {
        let mut parts = PathParts::new();
        self.folders.put(&mut parts);
        parts.push(self.name);
        parts
    }
}
