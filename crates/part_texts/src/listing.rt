//! What a folder was found to hold, and what is made of it.
ghost use Rattle.std.specs.Prelude.{◌≡◌, IfOk, map};
ghost use Rattle.part_texts.specs.Listings.{files_at_paths, listed, texts_of};

use std::alloc::{AllocError, Global};

/// A file that was listed.
#[derive(Debug, Drop)]
pub struct ListedFile {
    /// The components of its path.
    pub path: Vec<String>,
    /// Its length in bytes.
    pub length: u64,
}

/// What a folder was found to hold, and what is made of it.
#[derive(Debug, Drop)]
pub struct Listing {
    /// The display name.
    pub name: String,
    /// The piece length in bytes.
    pub piece_length: u64,
    /// Whether it is to be a hybrid.
    pub hybrid: bool,
    /// The files, in the order in which they are to be added.
    pub files: Vec<ListedFile>,
}

/// The files with these paths and of these lengths, in turn: as many as there are of both.
pub fn listed_files(
    alloc: Global,
    paths: Vec<Vec<String>>,
    lengths: &[u64],
) -> Result<Vec<ListedFile>, AllocError>
    ensures { IfOk result (λ files.
        map listed files.items ≡ files_at_paths (map texts_of paths.items) lengths.now) }
{
    let mut files = Vec::new(alloc);
    'files: for (path, length) in paths.into_iter().zip(lengths) {
        files.push(ListedFile {
            path,
            length: *length,
        })?;
    }
    Ok(files)
}
