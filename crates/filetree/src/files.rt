//! The files of a file tree: their lengths and roots (BEP 52, "file tree"), and their attributes
//! (BEP 47, "Extended File Attributes").

ghost use Rattle.std.specs.Prelude.{◌≡◌, map, vec_len, IfOk};
ghost use Rattle.std.specs.Vec.{vec_capacity};
ghost use Rattle.benc.specs.View.{view};
ghost use Rattle.filetree.specs.FileTree.{file_of_walk, has_attribute, length_at, root_at};
ghost use Rattle.filetree.specs.Walked.{walk_of};

use crate::path::Path;
use crate::walk::Found;
use benc::Value;
use hashtree::{Hash, MAX_LENGTH};
use std::alloc::{AllocError, Global};

/// A file of a file tree.
#[derive(Drop)]
pub struct ListedFile<'a> {
    /// The components of its path.
    pub path: Path<'a>,
    /// Its length in bytes.
    pub length: u64,
    /// Its root; `None` for an empty file.
    pub root: Option<Hash>,
}

/// Whether `attr` is a byte string with this letter (BEP 47, "Extended File Attributes").
pub fn has_attribute(file: &Value<'_>, letter: u8) -> bool
    ensures { result ≡ has_attribute letter (view file.now) }
{
    match file.get(b"attr") {
        Some(Value::Bytes(letters)) => letters.contains(&letter),
        _ => false,
    }
}

/// The length under `length`, if that is an integer from 0 to 2^46.
pub fn length(file: &Value<'_>) -> Option<u64>
    ensures { result ≡ length_at (view file.now) }
{
    match file.get(b"length") {
        Some(Value::Int(number)) if *number >= 0 && *number as u64 <= MAX_LENGTH => {
            Some(*number as u64)
        }
        _ => None,
    }
}

/// The files with their lengths and roots.
pub(crate) fn list<'a>(
    alloc: Global,
    files: Vec<Found<'_, 'a>>,
) -> Result<Vec<ListedFile<'a>>, AllocError>
    ensures files { IfOk result
        (λ fs. fs.items ≡ map file_of_walk (map walk_of files.entry.items)) }
    ensures room { IfOk result (λ fs. vec_capacity fs ≡ vec_len fs) }
{
    let mut listed = Vec::with_capacity(alloc, files.len())?;
    'files: for file in files {
        listed.push_reserved(listed_file(file));
    }
    Ok(listed)
}

// The file with its length and root.
fn listed_file<'a>(file: Found<'_, 'a>) -> ListedFile<'a>
    ensures { result ≡ file_of_walk (walk_of file.entry) }
{
    let Found { path, file } = file;
    let length = length(file).unwrap_or(0);
    let root = if length > 0 { root(file) } else { None };
    ListedFile { path, length, root }
}

/// The root under `pieces root`, if that is a byte string of 32 bytes.
pub(crate) fn root(file: &Value<'_>) -> Option<Hash>
    ensures { result ≡ root_at (view file.now) }
{
    match file.get(b"pieces root") {
        Some(Value::Bytes(bytes)) => Hash::try_from(*bytes).ok(),
        _ => None,
    }
}
