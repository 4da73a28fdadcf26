//! Opening a torrent file: its tests in their order, and the torrent that it describes (BEP 52,
//! "metainfo files").

ghost use Rattle.std.specs.Prelude.{◌≡◌, ◌≢◌, ◌≤◌, ◌^◌, Some, All, ◌<◌, IfErr, IfOk, MatchResult, codes, map};
ghost use Rattle.sha2.specs.Sha256.{sha256};
ghost use Rattle.benc.specs.Text.{IsCanonical, spelling};
ghost use Rattle.benc.specs.Value.{Bencode};
ghost use Rattle.benc.specs.View.{view, pairs_view};
ghost use Rattle.benc.specs.declared.fault.FaultKind.{FaultKind};
ghost use Rattle.filetree.specs.Dictionary.{get};
ghost use Rattle.filetree.specs.FileTree.{file_of_walk, walks};
ghost use Rattle.filetree.specs.Tests.{First, NoneHolds, PassesUnlessNoMemory};
ghost use Rattle.filetree.specs.TreeTests.{tree_rows};
ghost use Rattle.filetree.specs.declared.files.ListedFile.{ListedFile};
ghost use Rattle.opening.specs.Describes.{Describes, IsDescribed};
ghost use Rattle.opening.specs.Layered.{layer_pairs};
ghost use Rattle.opening.specs.Opening.{AreContents, AreFilledIn, AreKeys, content_rows};
ghost use Rattle.opening.specs.Refusals.{RefusesTorrent, OpeningTakesMemory, all_key_rows, layer_rows, piece_length_in, plain_rows, table};
ghost use Rattle.opening.specs.Trees.{IsIn, pieces_in};
ghost use Rattle.pieces.specs.Pieces.{IsPieceLength};

use crate::info::{self, Keys, read_keys};
use crate::laws::{refusal_is_one, torrent_is_not_refused, torrent_is_one};
use crate::layer_tests;
use crate::layers::Layers;
use crate::roots::{Roots, place_files, roots_of};
use crate::torrent::{Contents, Torrent};
use crate::version1::version1;
use benc::laws::spelling_is_of_canonical;
use benc::{Fault, FaultKind, Value, decode_with_span};
use filetree::{ListedFile, Refusal, read_tree};
use hashtree::Hash;
use pieces::PieceLength;
use sha1::Sha1;
use sha2::{Digest, Sha256};
use std::alloc::Global;

/// The most bytes that a torrent file may have.
pub const MAX_TORRENT: usize = 67_108_864;

impl<'a> Torrent<'a> {
    ghost use Rattle.opening.specs.Describes.{Describes};
    ghost use Rattle.opening.specs.Description.{Description};
    ghost use Rattle.opening.specs.Refusals.{RefusesTorrent, OpeningTakesMemory};

    /// Opens a torrent file, and borrows its bytes.
    ///
    /// The tests come in a fixed order: `TooLarge` past 67,108,864
    /// bytes, `NotBencode` with the first fault, the keys (`Missing`, `WrongType`, `Version` before
    /// all other keys of the info dictionary, `PieceLength`), the file tree (`Shape`, `Path`), its
    /// files (`Symlink`, `Length`, `Root`), the files together (`RootReused`, `NoFiles`,
    /// `TooManyPieces`), the piece layers (`LayerMissing`, `LayerSize`, `LayerMismatch`), and for a
    /// hybrid its version 1 part (`HybridFiles`, `HybridAlign`, `HybridPieces`).
    ///
    /// # Errors
    ///
    /// The first test that holds is answered. `NoMemory` comes only out of memory, and never for
    /// bytes that are `TooLarge` or `NotBencode`.
    pub fn open(alloc: Global, input: &'a [u8]) -> Result<Torrent<'a>, Refusal>
        ensures described { IfOk result (λ t. Describes input.now t) }
        ensures refused { IfErr result (λ r. r ≢ Refusal.NoMemory → RefusesTorrent input.now r) }
        // Bytes that describe a torrent open as that one.
        ensures only { (t : Description) → Describes input.now t
            → MatchResult result (λ u. u ≡ t) (λ r. r ≡ Refusal.NoMemory) }
        // Bytes that are refused are refused with that answer.
        ensures first { (r : Refusal) → RefusesTorrent input.now r
            → MatchResult result (λ _. ⊥) (λ s. s ≢ Refusal.NoMemory → s ≡ r) }
        // Out of memory is possible only for bytes within the limit that spell a value, and then
        // only where decoding comes to a list or dictionary with an item, or where no test of the
        // keys, of the file tree and of its files holds.
        ensures memory { IfErr result (λ r. r ≡ Refusal.NoMemory → OpeningTakesMemory input.now) }
    {
        torrent_is_one();
        torrent_is_not_refused();
        refusal_is_one();
        open_bytes(alloc, input)
    }
}

// Tests the files together, and the layers of their trees.
fn read_contents<'a>(
    alloc: Global,
    listed: Vec<ListedFile<'a>>,
    layers: &Layers<'_, 'a>,
    piece_length: PieceLength,
) -> Result<Contents<'a>, Refusal>
    requires { (f : ListedFile) → IsIn listed.items f → f.length ≤ 2 ^ 46 }
    ensures { PassesUnlessNoMemory
        (content_rows piece_length (layer_pairs layers.now) listed.entry.items)
        (AreContents piece_length (layer_pairs layers.now) listed.entry.items) result }
{
    let roots = roots_of(alloc, &listed, piece_length)?;
    with_layers(alloc, listed, roots, layers, piece_length)
}

// The files, and the trees with their layers, once these pass their tests.
fn with_layers<'a>(
    alloc: Global,
    listed: Vec<ListedFile<'a>>,
    roots: Roots,
    layers: &Layers<'_, 'a>,
    piece_length: PieceLength,
) -> Result<Contents<'a>, Refusal>
    requires bound { All (λ t. t.length ≤ 2 ^ 46) roots }
    requires pieces { pieces_in piece_length listed.items < 2 ^ 32 }
    ensures passes { PassesUnlessNoMemory (layer_rows piece_length (layer_pairs layers.now) roots)
        (AreFilledIn piece_length (layer_pairs layers.now) listed.entry.items roots) result }
    ensures memory { IfErr result (λ r. r ≡ Refusal.NoMemory
        → NoneHolds (layer_rows piece_length (layer_pairs layers.now) roots)) }
{
    layer_tests::test(roots.as_slice(), layers, piece_length)?;
    let trees = layer_tests::infos(alloc, roots.as_slice(), layers, piece_length)?;
    let files = place_files(alloc, listed, &roots, piece_length)?;
    Ok(Contents {
        files,
        trees,
        numbers: roots.into_numbers(),
    })
}

// What the keys say, the piece length, and the files of the file tree.
struct Listed<'v, 'a> {
    keys: Keys<'v, 'a>,
    piece_length: PieceLength,
    files: Vec<ListedFile<'a>>,
}

// Tests the keys and the file tree.
fn read_listed<'v, 'a>(alloc: Global, top: &'v Value<'a>) -> Result<Listed<'v, 'a>, Refusal>
    requires { IsCanonical (view top.now) }
    ensures passes { MatchResult result (λ x. NoneHolds (all_key_rows (view top.now))
        × AreKeys (view top.now) x.keys × (x.piece_length ≡ piece_length_in (view top.now))
        × IsPieceLength x.piece_length × NoneHolds (tree_rows (pairs_view x.keys.tree.now))
        × (x.files.items ≡ map file_of_walk (walks (pairs_view x.keys.tree.now))))
        (λ r. r ≢ Refusal.NoMemory → First (table (view top.now)) r) }
    ensures memory { IfErr result
        (λ r. r ≡ Refusal.NoMemory → NoneHolds (plain_rows (view top.now))) }
{
    let keys = read_keys(top)?;
    let piece_length = info::piece_length(keys.piece_length)?;
    let files = read_tree(alloc, keys.tree)?;
    Ok(Listed {
        keys,
        piece_length,
        files,
    })
}

// The torrent of a canonical value, given the bytes of its info dictionary as found.
fn read<'a>(alloc: Global, top: &Value<'a>, info_bytes: &[u8]) -> Result<Torrent<'a>, Refusal>
    requires canonical { IsCanonical (view top.now) }
    requires info { (i : Bencode) → get (codes "info") (view top.now) ≡ Some i
        → info_bytes.now ≡ spelling i }
    ensures passes { PassesUnlessNoMemory (table (view top.now))
        (IsDescribed (view top.now)) result }
    ensures memory { IfErr result
        (λ r. r ≡ Refusal.NoMemory → NoneHolds (plain_rows (view top.now))) }
{
    let Listed {
        keys,
        piece_length,
        files: listed,
    } = read_listed(alloc, top)?;
    let layers = Layers::of(keys.layers);
    let contents = read_contents(alloc, listed, &layers, piece_length)?;
    let v1 = version1(keys.info, keys.name, &contents.files, piece_length)?;
    let hash_v2 = info_hash_v2(info_bytes);
    let hash_v1 = Sha1::digest(info_bytes);
    Ok(Torrent::new(keys.name, piece_length, contents, hash_v2, hash_v1, v1))
}

// The SHA-256 digest of the bytes of an info dictionary.
fn info_hash_v2(info: &[u8]) -> Hash
    ensures { result ≡ sha256 info.now }
{
    Sha256::digest(info)
}

// The refusal for a fault of the bytes.
fn refusal_of(fault: Fault) -> Refusal
    ensures memory { fault.kind ≡ FaultKind.NoMemory → result ≡ Refusal.NoMemory }
    ensures memory_only { result ≡ Refusal.NoMemory → fault.kind ≡ FaultKind.NoMemory }
    ensures other { fault.kind ≢ FaultKind.NoMemory → result ≡ Refusal.NotBencode fault }
{
    match fault.kind {
        FaultKind::NoMemory => Refusal::NoMemory,
        _ => Refusal::NotBencode(fault),
    }
}

// The torrent that bytes describe, or why they describe none.
fn open_bytes<'a>(alloc: Global, input: &'a [u8]) -> Result<Torrent<'a>, Refusal>
    ensures described { IfOk result (λ t. Describes input.now t) }
    ensures refused { IfErr result (λ r. r ≢ Refusal.NoMemory → RefusesTorrent input.now r) }
    ensures memory { IfErr result (λ r. r ≡ Refusal.NoMemory → OpeningTakesMemory input.now) }
{
    spelling_is_of_canonical();
    if input.len() > MAX_TORRENT {
        return Err(Refusal::TooLarge);
    }
    let (top, span) = match decode_with_span(alloc, input, b"info") {
        Ok(decoded) => decoded,
        Err(fault) => return Err(refusal_of(fault)),
    };
    read(alloc, &top, span.unwrap_or(b""))
}
