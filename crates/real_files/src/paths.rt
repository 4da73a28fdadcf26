//! The paths of the file system.
ghost use Rattle.std.specs.Prelude.{◌≡◌, [], ◌∷◌, ◌++◌, IfOk, map, string_bytes};
ghost use Rattle.real_files.specs.SystemPaths.{system_path_below};

use std::alloc::{AllocError, Global};
use std::convert::AsStr;

/// The file system's path of what has these path components below the folder with this path.
pub(crate) fn path_below<S: AsStr>(
    alloc: Global,
    dir: &str,
    path: &[S],
) -> Result<String, AllocError>
    ensures { IfOk result (λ text. string_bytes text
        ≡ system_path_below dir.now (map S.text path.now)) }
{
    let mut text = String::from_str(alloc, dir)?;
    'parts: for part in path {
        text.push('/')?;
        text.push_str(part.as_str())?;
    }
    Ok(text)
}

/// The path of the folder that holds the file with this path, and the name that the file has there.
pub fn folder_and_name<'a>(path: &'a str) -> (&'a str, &'a str) {
    match path.rsplit_once('/') {
        None => (".", path),
        Some(("", name)) => ("/", name),
        Some((folder, name)) => (folder, name),
    }
}

/// The path of what has this name in a folder.
pub(crate) fn path_in(
    alloc: Global,
    folder: &[String],
    name: &str,
) -> Result<Vec<String>, AllocError>
    ensures { IfOk result (λ path. map string_bytes path.items
        ≡ map string_bytes folder.now ++ name.now ∷ []) }
{
    let mut path = Vec::new(alloc);
    'parts: for part in folder {
        path.push(part.clone()?)?;
    }
    path.push(String::from_str(alloc, name)?)?;
    Ok(path)
}
