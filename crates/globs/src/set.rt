//! Whether one of several globs leaves out a path.
ghost use Rattle.std.specs.Prelude.{◌≡◌, ℕ, IfErr, IfOk, IsTrue, map};
ghost use Rattle.std.specs.Str.{chars};
ghost use Rattle.std.specs.String.{string_bytes};
ghost use Rattle.globs.specs.Globs.{LeavesOutBelow, path_chars, some_leaves_out, some_leaves_out_folder};
ghost use Rattle.globs.specs.Globs.{whole_of};
ghost use Rattle.globs.specs.Matching.{some_leaves_out_as};
ghost use Rattle.globs.specs.Texts.{AnswersAs, AreRead, IsFirstNone, glob_of};
ghost use Rattle.globs.specs.declared.set.GlobFault.TheVariants as fault;

use crate::kinds::Glob;
use crate::matching::leaves_out;
use crate::reading::{ReadFault, read_glob};
use std::alloc::{AllocError, AllocFailed, Global};

/// Why texts are no globs.
#[derive(Clone, Copy, Debug, Drop)]
pub enum GlobFault {
    /// The text with this number, from 0, is none: it is empty, or it ends in a `\`, in an open
    /// `[..]`, or in a range that runs backwards.
    Malformed(usize),
    /// Out of memory.
    NoMemory,
}

impl<T: Drop> From<AllocFailed<T>> for GlobFault {
    ghost from_gives = { λ _ f. f ≡ fault.NoMemory };

    fn from(_error: AllocFailed<T>) -> GlobFault {
        GlobFault::NoMemory
    }
}

/// The globs of these texts.
///
/// # Errors
///
/// `Malformed`, with the number of the first text that is none; `NoMemory`.
pub fn read_globs(alloc: Global, texts: &[&str]) -> Result<Vec<Glob>, GlobFault>
    ensures read { IfOk result (λ globs. AreRead texts.now globs.items) }
    ensures none { IfErr result (λ f. (n : ℕ) → f ≡ GlobFault.Malformed n
        → IsFirstNone n texts.now) }
{
    let mut globs = Vec::new(alloc);
    'texts: for number in 0..texts.len() {
        let glob = match read_text(alloc, texts[number]) {
            Ok(glob) => glob,
            Err(ReadFault::Malformed) => return Err(GlobFault::Malformed(number)),
            Err(ReadFault::NoMemory) => return Err(GlobFault::NoMemory),
        };
        globs.push(glob)?;
    }
    Ok(globs)
}

// The glob of a text.
fn read_text(alloc: Global, text: &str) -> Result<Glob, ReadFault>
    ensures { AnswersAs whole_of result (glob_of (chars text.now)) }
{
    let letters: Vec<char> = text.chars().collect(alloc)?;
    read_glob(alloc, &letters)
}

/// Whether one of these globs matches the path of these components or a folder above it, so that
/// they leave out the file with this path. `row` is room that is used again.
pub fn is_left_out(
    alloc: Global,
    globs: &[Glob],
    row: &mut Vec<bool>,
    path: &[String],
) -> Result<bool, AllocError>
    ensures { IfOk result (λ is. is
        ≡ some_leaves_out (map whole_of globs.now) (path_chars (map string_bytes path.now))) }
{
    let letters = letters_of(alloc, path)?;
    some_leaves_out(globs, false, row, &letters)
}

/// The same of a folder: whether they leave out all that is below it.
pub fn is_folder_left_out(
    alloc: Global,
    globs: &[Glob],
    row: &mut Vec<bool>,
    path: &[String],
) -> Result<bool, AllocError>
    ensures found { IfOk result (λ is. is ≡ some_leaves_out_folder (map whole_of globs.now)
        (path_chars (map string_bytes path.now))) }
    ensures below { IfOk result (λ is. IsTrue is
        → LeavesOutBelow (map whole_of globs.now) (path_chars (map string_bytes path.now))) }
{
    let letters = letters_of(alloc, path)?;
    some_leaves_out(globs, true, row, &letters)
}

// The characters of a path, whose components `/` joins.
fn letters_of(alloc: Global, path: &[String]) -> Result<Vec<char>, AllocError>
    ensures { IfOk result (λ letters. letters.items ≡ path_chars (map string_bytes path.now)) }
{
    let text = path.join(alloc, "/")?;
    Ok(text.as_str().chars().collect(alloc)?)
}

// Whether one of these globs matches this path or a folder above it. One that matches folders alone
// matches this path itself only of a folder.
fn some_leaves_out(
    globs: &[Glob],
    is_folder: bool,
    row: &mut Vec<bool>,
    path: &[char],
) -> Result<bool, AllocError>
    ensures { IfOk result (λ is. is ≡ some_leaves_out_as is_folder (map whole_of globs.now)
        path.now) }
{
    'globs: for glob in globs {
        row.resize(glob.parts.len(), false)?;
        if leaves_out(!is_folder && glob.folders_alone, &glob.parts, row, path) {
            return Ok(true);
        }
    }
    Ok(false)
}
