//! The trees of a torrent: the distinct roots of its files (BEP 52, "pieces root").

ghost use Rattle.std.specs.Prelude.{◌≡◌, ◌≢◌, ◌<◌, ◌^◌, [], map, Some, MatchResult, IfErr, IfOk, OnOk, nat_le, option_and_then};
ghost use Rattle.filetree.specs.Tests.{PassesUnlessNoMemory, Tests};
ghost use Rattle.opening.specs.Refusals.{count_rows};
ghost use Rattle.opening.specs.Room.{HasExactRoom};
ghost use Rattle.opening.specs.Rooted.{AreNumbers, AreRoots, AreTrees, IsRootAt, IsRootRefused};
ghost use Rattle.opening.specs.Trees.{entries_from};
ghost use Rattle.opening.specs.Seen.{file_entry};
ghost use Rattle.opening.specs.Trees.{IsReused, pieces_in, place_in, with_root};

use crate::torrent::File;
use filetree::{ListedFile, Refusal};
use hashtree::Hash;
use pieces::{MAX_PIECES, PieceLength};
use std::alloc::{AllocError, Global};
use std::collections::BTreeMap;
use std::marker::Model;

/// A distinct root of a torrent's files, and their length. It is public because definitions cite
/// it; no public call takes or gives one.
#[derive(Clone, Copy)]
pub struct Root {
    /// The pieces root.
    pub root: Hash,
    /// The length of its files in bytes.
    pub length: u64,
}

/// The roots in the order of first use, and the number of each. Contracts see them as the list.
#[derive(Drop)]
pub(crate) struct Roots {
    numbers: BTreeMap<Hash, usize>,
    list: Vec<Root>,
}

impl Model for Roots {
    ghost use Rattle.std.specs.Prelude.{List};
    ghost use Rattle.opening.specs.Rooted.{AreNumbers};
    ghost use Rattle.opening.specs.declared.roots.Root.{Root};

    ghost Value = { List Root };

    ghost view = { λ r. r.list.items };

    ghost invariant = { λ r. AreNumbers r.numbers r.list.items };
}

impl Roots {
    /// The roots in the order of first use.
    pub(crate) fn as_slice(&self) -> &[Root]
        ensures { result.now ≡ self.now }
    {
        &self.list
    }

    /// The number of each root.
    pub(crate) fn into_numbers(self) -> BTreeMap<Hash, usize>
        ensures { AreNumbers result self }
    {
        let Roots { numbers, list: _ } = self;
        numbers
    }

    // No roots.
    fn new(alloc: Global) -> Roots
        ensures { result ≡ [] }
    {
        Roots {
            numbers: BTreeMap::new(alloc),
            list: Vec::new(alloc),
        }
    }

    // The number of a root.
    fn number(&self, root: &Hash) -> Option<usize>
        ensures { result ≡ place_in self.now root.now }
    {
        self.numbers.get(root).copied()
    }

    // Adds a root unless it is there with this length.
    fn add(&mut self, root: Hash, length: u64) -> Result<(), Refusal>
        ensures added { OnOk result (self.new ≡ with_root self.old length (Some root)) }
        ensures there { MatchResult result (λ _. IsRootAt self.new root length)
            (IsRootRefused self.old root length) }
    {
        match self.numbers.get(&root) {
            Some(number) => {
                if self.list[*number].length != length {
                    return Err(Refusal::RootReused);
                }
                Ok(())
            }
            None => {
                self.list.reserve(1)?;
                self.numbers.insert(root, self.list.len())?;
                self.list.push(Root { root, length })?;
                Ok(())
            }
        }
    }
}

/// The trees of the files, which have one length each; tests how many files and pieces there are.
pub(crate) fn roots_of(
    alloc: Global,
    files: &[ListedFile<'_>],
    piece_length: PieceLength,
) -> Result<Roots, Refusal>
    ensures passes { PassesUnlessNoMemory (count_rows piece_length files.now)
        (AreTrees piece_length files.now) result }
    ensures memory { IfErr result (λ r. r ≡ Refusal.NoMemory → files.now ≢ []) }
{
    if files.is_empty() {
        return Err(Refusal::NoFiles);
    }
    let roots = distinct(alloc, files)?;
    test_pieces(files, piece_length)?;
    Ok(roots)
}

/// The files, each with the number of its tree and its first piece.
pub(crate) fn place_files<'a>(
    alloc: Global,
    listed: Vec<ListedFile<'a>>,
    roots: &Roots,
    piece_length: PieceLength,
) -> Result<Vec<File<'a>>, AllocError>
    requires { pieces_in piece_length listed.items < 2 ^ 32 }
    ensures files { IfOk result
        (λ fs. map file_entry fs.items ≡ entries_from piece_length roots.now 0 listed.entry.items) }
    ensures room { IfOk result HasExactRoom }
{
    let mut files = Vec::with_capacity(alloc, listed.len())?;
    let mut first_piece = 0;
    'listed: for file in listed {
        let length = file.length;
        files.push_reserved(placed(file, roots, first_piece));
        first_piece += piece_length.pieces(length);
    }
    Ok(files)
}

// The file with the number of its tree, and with this first piece.
fn placed<'a>(file: ListedFile<'a>, roots: &Roots, first_piece: u64) -> File<'a>
    ensures { file_entry result ≡ (record {
      path = file.entry.path;
      length = file.entry.length;
      tree = option_and_then (place_in roots.now) file.entry.root;
      first_piece = first_piece;
    }) }
{
    let ListedFile { path, length, root } = file;
    let tree = match root {
        Some(root) => roots.number(&root),
        None => None,
    };
    File {
        path,
        length,
        tree,
        first_piece,
    }
}

// The distinct roots of the files, each of one length.
fn distinct(alloc: Global, files: &[ListedFile<'_>]) -> Result<Roots, Refusal>
    ensures { MatchResult result (AreRoots files.now)
        (λ r. r ≢ Refusal.NoMemory → (r ≡ Refusal.RootReused) × IsReused files.now) }
{
    let mut roots = Roots::new(alloc);
    'files: for file in files {
        if let Some(root) = file.root {
            roots.add(root, file.length)?;
        }
    }
    Ok(roots)
}

// Tests how many pieces the files have in all.
fn test_pieces(files: &[ListedFile<'_>], piece_length: PieceLength) -> Result<(), Refusal>
    ensures { Tests (nat_le (2 ^ 32) (pieces_in piece_length files.now))
        Refusal.TooManyPieces result }
{
    let mut pieces = 0;
    'files: for file in files {
        let more = piece_length.pieces(file.length);
        if more > MAX_PIECES - pieces {
            return Err(Refusal::TooManyPieces);
        }
        pieces += more;
    }
    Ok(())
}
