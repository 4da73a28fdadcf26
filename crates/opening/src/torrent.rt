//! An opened torrent.

use filetree::Path;
use hashtree::Hash;
use pieces::{PieceLength, V1};
use std::collections::BTreeMap;
use std::marker::Model;

/// A file of a torrent.
#[derive(Drop)]
pub struct File<'a> {
    /// The components of its path: at least one and at most 124, none of them empty, `.` or `..`,
    /// and none with a `/` or a zero byte. So it leads to no place outside the folder in which it
    /// is looked up.
    pub path: Path<'a>,
    /// Its length in bytes.
    pub length: u64,
    /// The number of its tree; `None` for an empty file.
    pub tree: Option<usize>,
    /// The piece at which it begins; for an empty file the piece at which the next file that is not
    /// empty begins, or the number of all pieces if none follows.
    pub first_piece: u64,
}

/// A tree of a torrent: a distinct root of its files.
#[derive(Clone, Copy)]
pub struct TreeInfo<'a> {
    /// The pieces root.
    pub root: Hash,
    /// The length of its files in bytes.
    pub length: u64,
    /// The piece layer without pads; empty if the length is at most the piece length.
    pub layer: &'a [Hash],
}

/// The files and trees of a torrent, and the number of each tree by its root.
#[derive(Drop)]
pub(crate) struct Contents<'a> {
    pub(crate) files: Vec<File<'a>>,
    pub(crate) trees: Vec<TreeInfo<'a>>,
    pub(crate) numbers: BTreeMap<Hash, usize>,
}

/// An opened torrent, which borrows the bytes that it was read from.
///
/// Its lists of files and trees have room for what they hold, and for no more.
#[derive(Drop)]
pub struct Torrent<'a> {
    name: &'a str,
    piece_length: PieceLength,
    files: Vec<File<'a>>,
    trees: Vec<TreeInfo<'a>>,
    numbers: BTreeMap<Hash, usize>,
    info_hash_v2: Hash,
    info_hash_v1: [u8; 20],
    v1: Option<V1<'a>>,
}

impl<'a> Model for Torrent<'a> {
    ghost use Rattle.std.specs.Prelude.{map};
    ghost use Rattle.opening.specs.Description.{Description};
    ghost use Rattle.opening.specs.Room.{HasExactRoom};
    ghost use Rattle.opening.specs.Rooted.{AreNumbers};
    ghost use Rattle.opening.specs.Seen.{described, tree_entry};
    ghost use Rattle.opening.specs.Sound.{IsSound};
    ghost use Rattle.opening.specs.Trees.{root_of_tree};

    ghost Value = { Description };

    ghost view = { λ t. described t.name.now t.piece_length t.files.items t.trees.items
        t.info_hash_v2 t.info_hash_v1 t.v1 };

    ghost invariant = { λ t. IsSound (described t.name.now t.piece_length t.files.items
        t.trees.items t.info_hash_v2 t.info_hash_v1 t.v1)
        × AreNumbers t.numbers (map root_of_tree (map tree_entry t.trees.items))
        × HasExactRoom t.files × HasExactRoom t.trees };
}

impl<'a> Torrent<'a> {
    ghost use Rattle.std.specs.Prelude.{◌≡◌, ◌<◌, ℕ, length, map, option_map, slice_get, IfSome, Some};
    ghost use Rattle.opening.specs.Description.{FileEntry};
    ghost use Rattle.opening.specs.Seen.{file_entry, tree_entry, version1};
    ghost use Rattle.opening.specs.Sound.{IsSound};
    ghost use Rattle.opening.specs.Room.{HasExactRoom};
    ghost use Rattle.opening.specs.Seen.{described};
    ghost use Rattle.opening.specs.Rooted.{AreNumbers};
    ghost use Rattle.opening.specs.Trees.{IsTreeWithRoot, root_of_tree};

    /// A torrent of these parts. Contracts see what it describes.
    pub(crate) fn new(
        name: &'a str,
        piece_length: PieceLength,
        contents: Contents<'a>,
        info_hash_v2: Hash,
        info_hash_v1: [u8; 20],
        v1: Option<V1<'a>>,
    ) -> Torrent<'a>
        requires sound { IsSound (described name.now piece_length contents.files.items
            contents.trees.items info_hash_v2 info_hash_v1 v1) }
        requires numbers { AreNumbers contents.numbers
            (map root_of_tree (map tree_entry contents.trees.items)) }
        requires room { HasExactRoom contents.files × HasExactRoom contents.trees }
        ensures { result
            ≡ described name.now piece_length contents.entry.files.items contents.entry.trees.items
            info_hash_v2 info_hash_v1 v1.entry }
    {
        let Contents {
            files,
            trees,
            numbers,
        } = contents;
        Torrent {
            name,
            piece_length,
            files,
            trees,
            numbers,
            info_hash_v2,
            info_hash_v1,
            v1,
        }
    }

    /// The display name. It may be `..` or hold a `/`: use it as no path.
    pub fn name(&self) -> &'a str
        ensures { result.now ≡ self.now.name }
    {
        self.name
    }

    /// The piece length in bytes.
    pub fn piece_length(&self) -> u64
        ensures { result ≡ self.now.piece_length }
    {
        self.piece_length.bytes()
    }

    /// The files, in the order of the file tree.
    pub fn files(&self) -> &[File<'a>]
        ensures { map file_entry result.now ≡ self.now.files }
    {
        &self.files
    }

    /// Each distinct root once, in the order of first use.
    pub fn trees(&self) -> &[TreeInfo<'a>]
        ensures { map tree_entry result.now ≡ self.now.trees }
    {
        &self.trees
    }

    /// The SHA-256 digest of the info dictionary's bytes as found (BEP 52, "infohash").
    pub fn info_hash_v2(&self) -> Hash
        ensures { result ≡ self.now.info_hash_v2 }
    {
        self.info_hash_v2
    }

    /// The SHA-1 digest of the info dictionary's bytes as found (BEP 3), computed for every
    /// torrent.
    pub fn info_hash_v1(&self) -> [u8; 20]
        ensures { result ≡ self.now.info_hash_v1 }
    {
        self.info_hash_v1
    }

    /// The version 1 part; `None` if the torrent is no hybrid.
    pub fn v1(&self) -> Option<&V1<'a>>
        ensures { option_map (λ v. version1 v.now) result ≡ self.now.v1 }
    {
        self.v1.as_ref()
    }

    /// The number of a file's tree; `None` for an empty file alone. Condition: there are more than
    /// `file` files.
    pub fn tree_of(&self, file: usize) -> Option<usize>
        requires { file < length self.now.files }
        ensures { (f : FileEntry) → slice_get self.now.files file ≡ Some f → result ≡ f.tree }
    {
        self.files[file].tree
    }

    /// The number of the tree that has this root; `None` if no tree has it. Takes no memory.
    pub fn tree_with_root(&self, root: &Hash) -> Option<usize>
        ensures found { IfSome result (IsTreeWithRoot self.now.trees root.now) }
        ensures only { (n : ℕ) → IsTreeWithRoot self.now.trees root.now n → result ≡ Some n }
    {
        self.numbers.get(root).copied()
    }

    /// What holds of every torrent: paths that lead to no other place, in order; distinct roots;
    /// layers that lead to their roots; files laid out piece after piece. A function that calls it
    /// knows that.
    pub fn recall_sound(&self)
        ensures { IsSound self.now }
    {
        let _ = &self.name;
    }
}
