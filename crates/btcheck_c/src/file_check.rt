//! The check of some of a file's pieces in a row, whose bytes come in parts of any size.

ghost use Rattle.std.specs.Prelude.{◌≡◌, ◌^◌, ◌<◌, ◌≤◌, ◌+◌, IfOk, length};
ghost use Rattle.opening.specs.Seen.{tree_entry};
ghost use Rattle.opening.specs.Sound.{IsSoundTree};
ghost use Rattle.pieces.specs.Pieces.{pieces_of};
ghost use Rattle.short_pushes.specs.RowChecks as rows;

use crate::rows::{numbered, only_root, row_hashes, row_length};
use c_layouts::bits::set_bit;
use hashtree::{Hash, NoMemory, Shape};
use opening::TreeInfo;
use pieces::{PieceLength, ends_with_piece};
use short_pushes::RowCheck;
use std::alloc::Global;

/// The check of some of a file's pieces in a row. Each is compared with its hash in the piece
/// layer; the only piece of a file is compared by its root, which lies in no slice that lives as
/// long as the torrent's bytes. Only [`FileCheck::new`] takes memory.
#[derive(Drop)]
pub struct FileCheck {
    check: RowCheck<'static>,
    first: u64,
    root: Option<Hash>,
    ghost some: { 0 < rows.shape_of_row check },
    ghost few: { first + length (rows.hashes_of_row check) ≤ 2 ^ 47 },
}

impl FileCheck {
    ghost use Rattle.btcheck_c.specs.FileChecks.{BeginsFile, BeginsFileAnew, FeedsFileCheck, IsFileVerdict, IsShortFile, check_bytes_left};

    /// A check that was given nothing yet, of a file's pieces from one number up to another. It
    /// fails if memory is refused. Conditions: the tree is one of a torrent with this piece length,
    /// and its files have these pieces.
    pub(crate) fn new(
        alloc: Global,
        tree: &TreeInfo<'static>,
        piece_length: PieceLength,
        from: u64,
        to: u64,
    ) -> Result<FileCheck, NoMemory>
        requires sound { IsSoundTree piece_length (tree_entry tree.now) }
        requires order { from < to }
        requires within { to ≤ pieces_of piece_length tree.now.length }
        ensures { IfOk result (BeginsFile piece_length (tree_entry tree.now) from to) }
    {
        let shape = Shape::of(row_length(piece_length, tree.length, from, to)).unwrap();
        let layer = Shape::of(piece_length.bytes()).unwrap().height();
        let hashes = row_hashes(tree, piece_length, from, to);
        Ok(FileCheck {
            check: RowCheck::new(alloc, shape, layer, hashes)?,
            first: from,
            root: only_root(tree, piece_length),
        })
    }

    /// How many bytes of the pieces are still to come.
    pub(crate) fn left(&self) -> u64
        ensures { result ≡ check_bytes_left self.now }
    {
        self.check.left()
    }

    /// Takes the next bytes, and sets the bit of each piece of the row that is complete and good.
    /// Condition: they are no more than are still to come.
    pub(crate) fn push(&mut self, bytes: &[u8], good: &mut [u8])
        requires { length bytes.now ≤ check_bytes_left self.old }
        ensures { FeedsFileCheck self.old good.old bytes.now self.new good.new }
    {
        self.check.push(bytes, good);
    }

    /// The number in the file of the first piece that is not the torrent's, from 0; `None` if each
    /// is. It sets the bit of the last piece if that is good, and the check begins anew. Condition:
    /// nothing is still to come.
    pub(crate) fn finish(&mut self, good: &mut [u8]) -> Option<u64>
        requires { check_bytes_left self.old ≡ 0 }
        ensures verdict { IsFileVerdict self.old good.old good.new result }
        ensures begins { BeginsFileAnew self.old self.new }
        ensures size { length good.new ≡ length good.old }
    {
        match self.root {
            None => {
                let (_, _, place) = self.check.finish(good);
                numbered(self.first, place)
            }
            Some(root) => {
                let (_, found, _) = self.check.finish(&mut []);
                if found == root {
                    set_bit(good, 0);
                    None
                } else {
                    Some(0)
                }
            }
        }
    }

    /// Ends the check where the content ends: it sets the bit of the last piece if that is whole
    /// and good, and the check begins anew. Condition: bytes are still to come.
    pub(crate) fn stop(&mut self, good: &mut [u8])
        requires { 0 < check_bytes_left self.old }
        ensures verdict { IsShortFile self.old good.old good.new }
        ensures begins { BeginsFileAnew self.old self.new }
        ensures size { length good.new ≡ length good.old }
    {
        if ends_with_piece(self.check.len(), self.check.layer()) {
            let _found = self.check.finish(good);
        } else {
            self.check.restart();
        }
    }
}
