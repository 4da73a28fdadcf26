//! Small files that were read one after the other, and are hashed side by side.
ghost use Rattle.std.specs.Prelude.{◌≡◌, ◌≢◌, ◌↔◌, ℕ, List, [], ◌<◌, ◌≤◌, true, IfOk, IsTrue, IsFalse, OnErr, Some, length, slice_get};
ghost use Rattle.benc.specs.Device.{CountsFault};
ghost use Rattle.file_windows.specs.Windows.{AreFileCutsListed};
ghost use Rattle.hashtree.specs.Tree.{block_count, height, layer_of, root_of};
ghost use Rattle.pieces.specs.FileCuts.{IsV1File};
ghost use Rattle.pieces.specs.Pieces.{pieces_of};
ghost use Rattle.passes.specs.declared.cuts_wanted.CutsWanted.TheVariants as cuts;

use crate::cuts_wanted::CutsWanted;
use crate::nothing::Nothing;
use crate::rows::Rows;
use benc::{DeviceFault, Source};
use hashtree::{Hash, NoMemory};
use pieces::{PieceLength, V1File};
use std::alloc::Global;
use std::marker::Model;

/// What came of reading a file of which it is known how long it is to be.
#[derive(Clone, Copy)]
pub enum Read {
    /// All its bytes are held.
    Held,
    /// It has another length. It is not held.
    Other,
    /// There is no room for it. Nothing was read.
    NoRoom,
}

/// Paths that were looked at one after the other, and the bytes of the small files that are there,
/// which are hashed side by side. At most 64 paths and 524,288 bytes; a small file has at most
/// eight blocks.
#[derive(Drop)]
pub struct HeldFiles {
    rows: Rows,
    is_hashed: bool,
}

impl Model for HeldFiles {
    ghost use Rattle.passes.specs.Held.{HeldSeen};
    ghost use Rattle.passes.specs.Rows.{IsHeldSound, seen_held};

    ghost Value = { HeldSeen };

    ghost view = { λ h. seen_held h.rows h.is_hashed };

    ghost invariant = { λ h. IsHeldSound h.rows h.is_hashed };
}

impl HeldFiles {
    ghost use Rattle.passes.specs.Held.{Answer, HoldsMore, IsNothingFor, KeepsHeld, NowHolds, ReadsStated, as_answer, content};

    /// Nothing is held, of files whose version 1 pieces have this length. If memory for their bytes
    /// is refused, only empty ones will be held; the same where at most one file is to come.
    pub fn new(
        alloc: Global,
        files: usize,
        piece_length: PieceLength,
        wanted: CutsWanted,
    ) -> HeldFiles
        ensures none { result.answers ≡ [] }
        ensures cutting { result.cutting ≡ record { piece_length = piece_length; wanted = wanted } }
    {
        HeldFiles {
            rows: Rows::new(alloc, files, piece_length, wanted),
            is_hashed: false,
        }
    }

    /// How many paths were looked at.
    pub fn len(&self) -> usize
        ensures value { result ≡ length self.now.answers }
        ensures bound { result ≤ 64 }
    {
        self.rows.count
    }

    /// Whether there is room for one more file of this size.
    pub fn has_room(&self, size: u64) -> bool
        ensures { IsTrue result → size ≤ 131072 }
    {
        self.rows.has_room(size, 1)
    }

    /// Lets go of all that is held.
    pub fn clear(&mut self)
        ensures { NowHolds self.old [] self.new }
    {
        self.is_hashed = false;
        self.rows.clear();
    }

    /// Holds that there is nothing to be held of one more path. Condition: there is room for it.
    pub fn hold_nothing(&mut self, why: Nothing)
        requires { length self.old.answers < 64 }
        ensures { HoldsMore self.old (as_answer why) self.new }
    {
        self.is_hashed = false;
        self.rows.keep_nothing(why);
    }

    /// Holds a file with these bytes too, if there is room for it.
    pub fn hold(&mut self, bytes: &[u8]) -> bool
        ensures held { IsTrue result → HoldsMore self.old (content bytes.now) self.new }
        ensures kept { IsFalse result → self.new ≡ self.old }
    {
        if !self.rows.has_room(bytes.len() as u64, 0) {
            return false;
        }
        self.is_hashed = false;
        self.rows.write(bytes);
        self.rows.keep(bytes.len());
        true
    }

    /// Reads a file that is to have this many bytes, to one byte past them at most, if there is
    /// room for them, and holds it if it has as many.
    pub fn read<F: Source>(&mut self, file: &mut F, size: u64) -> Result<Read, DeviceFault>
        ensures reads { ReadsStated size (F.seen file.old) (F.seen file.new) self.old self.new
            result }
        ensures counts { CountsFault (F.seen file.old).faults (F.seen file.new).faults result }
    {
        if !self.rows.has_room(size, 1) {
            return Ok(Read::NoRoom);
        }
        self.is_hashed = false;
        let count = self.rows.fill_behind(file, size as usize)?;
        if count != size as usize {
            return Ok(Read::Other);
        }
        self.rows.keep(count);
        Ok(Read::Held)
    }

    /// Hashes the blocks of what is held, and the version 1 pieces that are wanted.
    pub fn hash(&mut self)
        ensures hashed { self.new.is_hashed ≡ true }
        ensures kept { KeepsHeld self.old self.new }
    {
        self.rows.hash();
        self.is_hashed = true;
    }

    /// Why there is nothing to be held of the path of this number; `None` if its file is held.
    /// Condition: it was looked at.
    pub fn nothing(&self, place: usize) -> Option<Nothing>
        requires { place < length self.now.answers }
        ensures { (a : Answer) → slice_get self.now.answers place ≡ Some a
            → IsNothingFor result a }
    {
        self.rows.place(place).nothing
    }

    /// The bytes of the file of this number. Condition: it is held.
    pub fn bytes(&self, place: usize) -> &[u8]
        requires { (bytes : List ℕ) × (slice_get self.now.answers place ≡ Some (content bytes)) }
        ensures bytes { slice_get self.now.answers place ≡ Some (content result.now) }
        ensures few { length result.now ≤ 1048576 }
    {
        let at = self.rows.place(place);
        &self.rows.room[at.start..at.start + at.size]
    }

    /// The leaves of the tree of the file of this number. Conditions: it is held and hashed.
    pub fn leaves(&self, place: usize) -> &[Hash]
        requires hashed { self.now.is_hashed ≡ true }
        requires whole { (bytes : List ℕ)
            × (slice_get self.now.answers place ≡ Some (content bytes)) }
        ensures { (bytes : List ℕ) → slice_get self.now.answers place ≡ Some (content bytes)
            → result.now ≡ layer_of bytes 0 }
    {
        let at = self.rows.place(place);
        self.rows.blocks.leaves(at.block, at.size)
    }

    /// The root of the tree of the file of this number (BEP 52, "pieces root"). Conditions: it is
    /// held and hashed, and has a byte.
    pub fn root(&self, place: usize) -> Hash
        requires hashed { self.now.is_hashed ≡ true }
        requires whole { (bytes : List ℕ)
            × (slice_get self.now.answers place ≡ Some (content bytes)) × (0 < length bytes) }
        ensures { (bytes : List ℕ) → slice_get self.now.answers place ≡ Some (content bytes)
            → result ≡ root_of bytes }
    {
        let at = self.rows.place(place);
        self.rows.blocks.root(at.block, at.size)
    }

    /// A layer of the tree of the file of this number, without its pads; none above the root (BEP
    /// 52, "piece layers"). Conditions: as for [`HeldFiles::root`].
    ///
    /// # Errors
    ///
    /// It fails only if memory was refused, which is asked for only if the tree has the layer.
    pub fn layer(&self, alloc: Global, place: usize, layer: u32) -> Result<Vec<Hash>, NoMemory>
        requires hashed { self.now.is_hashed ≡ true }
        requires whole { (bytes : List ℕ)
            × (slice_get self.now.answers place ≡ Some (content bytes)) × (0 < length bytes) }
        ensures layer { IfOk result (λ hashes. (bytes : List ℕ)
            → slice_get self.now.answers place ≡ Some (content bytes)
            → hashes.items ≡ layer_of bytes layer) }
        ensures memory { OnErr result ((bytes : List ℕ)
            → slice_get self.now.answers place ≡ Some (content bytes)
            → layer ≤ height (block_count (length bytes))) }
    {
        let at = self.rows.place(place);
        self.rows.blocks.layer(alloc, at.block, at.size, layer)
    }

    /// The digests of the version 1 pieces of the file of this number: as they are, and that of the
    /// last one filled up with zeros. Conditions: it is held, both were wanted, and are hashed.
    ///
    /// # Errors
    ///
    /// It fails only if memory was refused, which is asked for only if the file has a byte.
    pub fn digests(&self, alloc: Global, place: usize) -> Result<V1File, NoMemory>
        requires hashed { self.now.is_hashed ≡ true }
        requires wanted { self.now.cutting.wanted ≡ cuts.Both }
        requires whole { (bytes : List ℕ)
            × (slice_get self.now.answers place ≡ Some (content bytes)) }
        ensures file { IfOk result (λ file. (bytes : List ℕ)
            → slice_get self.now.answers place ≡ Some (content bytes)
            → IsV1File self.now.cutting.piece_length bytes file) }
        ensures memory { OnErr result ((bytes : List ℕ)
            → slice_get self.now.answers place ≡ Some (content bytes) → 0 < length bytes) }
    {
        let at = self.rows.place(place);
        self.rows.cuts.file(alloc, at.cut, at.size)
    }

    /// Whether these are the digests of the version 1 pieces of the file of this number, the last
    /// filled up with zeros (BEP 3, "pieces"; BEP 47, "Padding Files"). Conditions: it is held, its
    /// pieces were wanted and are hashed, and it has as many.
    pub fn are_listed(&self, place: usize, listed: &[[u8; 20]]) -> bool
        requires hashed { self.now.is_hashed ≡ true }
        requires wanted { self.now.cutting.wanted ≢ cuts.Nothing }
        requires whole { (bytes : List ℕ)
            × (slice_get self.now.answers place ≡ Some (content bytes))
            × (length listed.now ≤ pieces_of self.now.cutting.piece_length (length bytes)) }
        ensures { (bytes : List ℕ) → slice_get self.now.answers place ≡ Some (content bytes)
            → (IsTrue result
            ↔ AreFileCutsListed self.now.cutting.piece_length listed.now bytes) }
    {
        let at = self.rows.place(place);
        self.rows.cuts.are_listed(at.cut, listed)
    }
}
