//! Where the files of a new torrent are, and which of them are in it.
use actions::{NewTorrent, Origin};
use real_files::{Choice, Folder, Progress, System, folder_and_name};

/// The path that was given: the folder's, or that of the one file.
pub(crate) fn path_of<'a>(origin: Origin<'a>) -> &'a str {
    match origin {
        Origin::Folder(path) | Origin::File(path) => path,
    }
}

/// The path of the folder that holds the files.
pub(crate) fn folder_of<'a>(origin: Origin<'a>) -> &'a str {
    match origin {
        Origin::Folder(path) => path,
        Origin::File(path) => folder_and_name(path).0,
    }
}

/// Whether it is one file.
pub(crate) fn is_file(origin: Origin<'_>) -> bool {
    matches!(origin, Origin::File(_))
}

/// The shelf of the files of the folder with this path, or of the file.
pub(crate) fn shelf_at<'s>(
    system: &'s System,
    path: &'s str,
    is_file: bool,
    progress: &'s Progress,
) -> Folder<'s> {
    if is_file {
        Folder::of_file(system, path, progress)
    } else {
        Folder::new(system, path, progress)
    }
}

/// What becomes of links, and of what is neither a file nor a folder.
pub(crate) fn choice_of(asked: &NewTorrent<'_>) -> Choice {
    Choice {
        follows_links: asked.follow_symlinks,
        skips_special: asked.skip_special,
    }
}

/// Whether something may be left out, so that the options are to blame if there is no file.
pub(crate) fn may_leave_out(asked: &NewTorrent<'_>) -> bool {
    asked.skip_special || !asked.exclude.is_empty()
}
