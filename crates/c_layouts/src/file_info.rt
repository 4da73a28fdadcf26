//! A torrent's file, laid out for C.

ghost use Rattle.std.specs.Prelude.{◌<◌, ◌≤◌, length, IfSome, MatchOption};
ghost use Rattle.c_layouts.specs.Files.{IsFileInfo, HasTree};

use hashtree::Hash;
use opening::Torrent;

/// A file of a torrent, laid out for C. An empty file has no tree: then its number is 2^64 - 1, and
/// its root zeros.
#[repr(C)]
#[derive(Clone, Copy)]
pub struct FileInfo {
    pub length: u64,
    pub first_piece: u64,
    pub tree: u64,
    pub root: [u8; 32],
}

/// A file, laid out for C; `None` if the torrent has no such file.
pub fn file_info(torrent: &Torrent<'_>, number: usize) -> Option<FileInfo>
    ensures { MatchOption result (length torrent.now.files ≤ number)
        (IsFileInfo torrent.now number) }
{
    torrent.recall_sound();
    match torrent.files().get(number) {
        None => None,
        Some(file) => {
            let (tree, root) = tree_and_root(torrent, file.tree);
            Some(FileInfo {
                length: file.length,
                first_piece: file.first_piece,
                tree,
                root,
            })
        }
    }
}

// The number of a file's tree, and its root.
fn tree_and_root(torrent: &Torrent<'_>, tree: Option<usize>) -> (u64, Hash)
    requires { IfSome tree (λ n. n < length torrent.now.trees) }
    ensures { HasTree torrent.now tree result.0 result.1 }
{
    match tree {
        None => (u64::MAX, [0; 32]),
        Some(number) => {
            let info = &torrent.trees()[number];
            (number as u64, info.root)
        }
    }
}
