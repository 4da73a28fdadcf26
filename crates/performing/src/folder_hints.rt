//! Which folder may be meant in place of one that has no file of a torrent.
use crate::hints::{are_told, tell};
use opening::Torrent;
use real_files::{Standing, System, has_file_of, has_folder};

// What may be wrong with a folder in which no file of a torrent was found.
#[derive(Drop)]
enum Doubt {
    // It is not there.
    Absent,
    // It is no folder.
    NoFolder,
    // The one with this path may be meant.
    Meant(String),
}

/// If no file of a torrent stands below this folder, tells on standard error why, or to put another
/// one behind these words.
pub(crate) fn hint_at_folder(system: &System, torrent: &Torrent<'_>, dir: &str, words: &[&str]) {
    if !are_told(system) {
        return;
    }
    match doubt_of(system, torrent, dir) {
        None => (),
        Some(Doubt::Absent) => tell(system, &["there is no folder"], dir),
        Some(Doubt::NoFolder) => tell(system, &["it is no folder:"], dir),
        Some(Doubt::Meant(other)) => tell(system, words, other.as_str()),
    }
}

fn doubt_of(system: &System, torrent: &Torrent<'_>, dir: &str) -> Option<Doubt> {
    match Standing::at(system, dir) {
        Standing::Nothing => Some(Doubt::Absent),
        Standing::NoFolder => Some(beside(system, torrent, dir)),
        Standing::Folder => Some(Doubt::Meant(other_folder(system, torrent, dir)?)),
        Standing::Unknown => None,
    }
}

// What may be meant by the path of what is no folder: the folder that it is in, if a file of the
// torrent is there.
fn beside(system: &System, torrent: &Torrent<'_>, path: &str) -> Doubt {
    let dir = folder_of(path);
    if has_file_of(system, dir, torrent) {
        if let Ok(dir) = String::from_str(system.alloc(), dir) {
            return Doubt::Meant(dir);
        }
    }
    Doubt::NoFolder
}

// The folder that what has this path is in.
fn folder_of(path: &str) -> &str {
    match path.rsplit_once('/') {
        None => ".",
        Some(("", _)) => "/",
        Some((dir, _)) => dir,
    }
}

// The folder in this one, or the one that it is in, that may be meant.
fn other_folder(system: &System, torrent: &Torrent<'_>, dir: &str) -> Option<String> {
    if has_file_of(system, dir, torrent) {
        return None;
    }
    match inner_folder(system, torrent.name(), dir) {
        Some(inner) => Some(inner),
        None => outer_folder(system, torrent, dir),
    }
}

// The path of the folder with this name in a folder, if there is one and the name leads nowhere
// else.
fn inner_folder(system: &System, name: &str, dir: &str) -> Option<String> {
    if name.is_empty() || name == "." || name == ".." || name.contains('/') {
        return None;
    }
    let path = format!(in system.alloc(); "{dir}/{name}").ok()?;
    if has_folder(system, path.as_str()) {
        Some(path)
    } else {
        None
    }
}

// The path of the folder that a folder is in, if a file of the torrent is there.
fn outer_folder(system: &System, torrent: &Torrent<'_>, dir: &str) -> Option<String> {
    let path = format!(in system.alloc(); "{dir}/..").ok()?;
    if has_file_of(system, path.as_str(), torrent) {
        Some(path)
    } else {
        None
    }
}
