//! Adding a file to a draft: its tests in their order, and its place (BEP 52, "file tree").

ghost use Rattle.std.specs.Prelude.{◌≡◌, ◌<◌, ◌≤◌, ◌+◌, ◌^◌, ◌&&◌, if◌then◌else◌, nat_lt, [], All, List, length, map, vec_len, MatchResult, IfErr, OnErr, OnOk};
ghost use Rattle.std.specs.String.{string_bytes};
ghost use Rattle.std.specs.Vec.{vec_capacity};
ghost use Rattle.filetree.specs.Paths.{IsFilePath};
ghost use Rattle.filetree.specs.Tests.{NoneHolds, GivesUnlessNoMemory};
ghost use Rattle.pieces.specs.Pieces.{pieces_of};
ghost use Rattle.drafts.specs.Adding.{Adds, IsGiven, IsWith, MayAdd, ReusesRoot, add_rows, given_file, pieces_in_all};
ghost use Rattle.drafts.specs.Orders.{IsPlaceOf};
ghost use Rattle.drafts.specs.Outline.{Outline, OutlineFile};
ghost use Rattle.drafts.specs.DraftSeen.{AreRootsOf, HasOwnRoom, HaveOwnRooms, KeepsRoot, outline_file};

use crate::component::test_path;
use crate::draft::{Draft, DraftFile, KeptRoot};
use crate::path_order::place_among;
use filetree::Refusal;
use hashtree::{Hash, MAX_LENGTH, reserve_thrifty};
use pieces::{MAX_PIECES, V1File};
use std::alloc::Global;
use std::collections::BTreeMap;

impl Draft {
    /// Adds a file with this path, length in bytes and pieces root. `root` is ignored for an empty
    /// file, `layer` for a file that is no longer than a piece, and `v1` unless the draft is a
    /// hybrid and the file is not empty.
    ///
    /// Conditions: `layer`, unless it is ignored, has one hash for each of the file's pieces, and
    /// the tree over it has this root; `v1`, unless it is ignored, has one digest for each piece.
    ///
    /// # Errors
    ///
    /// The first of these, and the draft is unchanged: `Path` if there is no component, more than
    /// 124, or one that is empty, `.`, `..` or has a `/` or a zero byte; `Length` above 2^46 bytes;
    /// `RootReused` if a file of another length has this root; `TooManyPieces` above 2^32 - 1
    /// pieces in all; `PathClash` if the path is there, or if it or one that is there is a prefix
    /// of the other; `NoMemory` only if memory was refused.
    pub fn add(
        &mut self,
        path: &[&str],
        length: u64,
        root: Hash,
        layer: &[Hash],
        v1: &V1File,
    ) -> Result<(), Refusal>
        requires { MayAdd self.old
            (given_file self.old (map (λ s. s.now) path.now) length root v1.now) layer.now }
        ensures { Adds self.old (given_file self.old (map (λ s. s.now) path.now) length root v1.now)
            layer.now self.new result }
    {
        test_path(path)?;
        if length > MAX_LENGTH {
            return Err(Refusal::Length);
        }
        self.test_root(length, &root)?;
        self.test_pieces(length)?;
        let Some(place) = place_among(&self.files, path) else {
            return Err(Refusal::PathClash);
        };
        let file = self.draft_file(path, length, root, v1)?;
        are_digests(&v1.cuts);
        self.insert(place, file, layer)
    }

    // Tests that no file of another length has this root.
    fn test_root(&self, length: u64, root: &Hash) -> Result<(), Refusal>
        ensures { MatchResult result (λ _. ReusesRoot self.now length root.now → ⊥)
            (λ r. (r ≡ Refusal.RootReused) × ReusesRoot self.now length root.now) }
    {
        match self.roots.get(root) {
            Some(kept) if length > 0 && kept.length != length => Err(Refusal::RootReused),
            _ => Ok(()),
        }
    }

    // Tests how many pieces there are with those of a file of this length.
    fn test_pieces(&self, length: u64) -> Result<(), Refusal>
        ensures { MatchResult result
            (λ _. pieces_in_all self.now + pieces_of self.now.piece_length length < 2 ^ 32)
            (λ r. (r ≡ Refusal.TooManyPieces)
            × (2 ^ 32 ≤ pieces_in_all self.now + pieces_of self.now.piece_length length)) }
    {
        if self.piece_length.pieces(length) > MAX_PIECES - self.pieces {
            return Err(Refusal::TooManyPieces);
        }
        Ok(())
    }

    // The file as a draft keeps it.
    fn draft_file(
        &self,
        path: &[&str],
        length: u64,
        root: Hash,
        v1: &V1File,
    ) -> Result<DraftFile, Refusal>
        ensures given { GivesUnlessNoMemory result (λ f. outline_file f
            ≡ given_file self.now (map (λ s. s.now) path.now) length root v1.now) }
        ensures room { GivesUnlessNoMemory result HasOwnRoom }
    {
        let path = texts(self.alloc, path)?;
        let cuts = self.kept_cuts(length, &v1.cuts)?;
        Ok(DraftFile {
            path,
            length,
            root,
            cuts,
            padded: v1.padded,
        })
    }

    // The digests of cuts that a draft keeps of a file of this length.
    fn kept_cuts(&self, length: u64, cuts: &[[u8; 20]]) -> Result<Vec<[u8; 20]>, Refusal>
        ensures cuts { GivesUnlessNoMemory result (λ cs. cs.items
            ≡ (if self.now.hybrid && nat_lt 0 length then cuts.now else [])) }
        ensures room { GivesUnlessNoMemory result (λ cs. vec_capacity cs ≡ vec_len cs) }
    {
        if self.hybrid && length > 0 {
            return copies(self.alloc, cuts);
        }
        Ok(Vec::new(self.alloc))
    }

    // Puts a file at its place among the others, and keeps its root.
    fn insert(&mut self, place: usize, file: DraftFile, layer: &[Hash]) -> Result<(), Refusal>
        requires room { place ≤ length self.old.files }
        requires place { IsPlaceOf (outline_file file).path
            (map (λ (f : OutlineFile). f.path) self.old.files) place }
        requires path { IsFilePath (outline_file file).path }
        requires tests { NoneHolds (add_rows self.old (outline_file file)) }
        requires fits { IsGiven self.old (outline_file file) layer.now }
        requires own_room { HasOwnRoom file }
        ensures added { OnOk result
            (IsWith self.old self.new (outline_file file) layer.now) }
        ensures refused { IfErr result (λ r. r ≡ Refusal.NoMemory) }
        ensures unchanged { OnErr result (self.new ≡ self.old) }
    {
        let pieces = self.pieces + self.piece_length.pieces(file.length);
        let piece_length = self.piece_length.bytes();
        reserve_thrifty(&mut self.files)?;
        keep_root(self.alloc, &mut self.roots, &file, layer, piece_length)?;
        self.files.insert(place, file)?;
        self.pieces = pieces;
        Ok(())
    }
}

// Keeps the root of a file that is not empty, unless it is there.
fn keep_root(
    alloc: Global,
    roots: &mut BTreeMap<Hash, KeptRoot>,
    file: &DraftFile,
    layer: &[Hash],
    piece_length: u64,
) -> Result<(), Refusal>
    ensures kept { OnOk result ((d : Outline) → AreRootsOf d.files roots.old.entries
        → (ReusesRoot d file.now.length file.now.root → ⊥)
        → KeepsRoot piece_length d.files (outline_file file.now) layer.now
        roots.old.entries roots.new.entries) }
    ensures refused { IfErr result (λ r. r ≡ Refusal.NoMemory) }
    ensures unchanged { OnErr result (roots.new.entries ≡ roots.old.entries) }
    ensures room { HaveOwnRooms roots.old.entries → HaveOwnRooms roots.new.entries }
{
    if file.length == 0 || roots.contains_key(&file.root) {
        return Ok(());
    }
    let kept = kept_root(alloc, file.length, layer, piece_length)?;
    roots.insert(file.root, kept)?;
    Ok(())
}

// What is kept of a root of files of this length.
fn kept_root(
    alloc: Global,
    length: u64,
    layer: &[Hash],
    piece_length: u64,
) -> Result<KeptRoot, Refusal>
    ensures length { GivesUnlessNoMemory result (λ k. k.length ≡ length) }
    ensures layer { GivesUnlessNoMemory result
        (λ k. piece_length < length → k.layer.items ≡ layer.now) }
    ensures room { GivesUnlessNoMemory result (λ k. vec_capacity k.layer ≡ vec_len k.layer) }
{
    let layer = if length > piece_length {
        copies(alloc, layer)?
    } else {
        Vec::new(alloc)
    };
    Ok(KeptRoot { length, layer })
}

// Copies of texts.
fn texts(alloc: Global, parts: &[&str]) -> Result<Vec<String>, Refusal>
    ensures texts { GivesUnlessNoMemory result
        (λ ts. map string_bytes ts.items ≡ map (λ s. s.now) parts.now) }
    ensures room { GivesUnlessNoMemory result (λ ts. vec_capacity ts ≡ vec_len ts) }
{
    let mut texts = Vec::with_capacity(alloc, parts.len())?;
    'parts: for part in parts {
        texts.push_reserved(String::from_str(alloc, part)?);
    }
    Ok(texts)
}

// Copies of digests.
fn copies<const WIDTH: usize>(
    alloc: Global,
    digests: &[[u8; WIDTH]],
) -> Result<Vec<[u8; WIDTH]>, Refusal>
    ensures digests { GivesUnlessNoMemory result (λ ds. ds.items ≡ digests.now) }
    ensures room { GivesUnlessNoMemory result (λ ds. vec_capacity ds ≡ vec_len ds) }
{
    let mut copies = Vec::with_capacity(alloc, digests.len())?;
    'digests: for digest in digests {
        copies.push_reserved(*digest);
    }
    Ok(copies)
}

// Each digest has 20 bytes, as its type says.
fn are_digests(digests: &[[u8; 20]])
    ensures { All (λ h. length h ≡ 20) digests.now }
{}
