//! The keys of a torrent file (BEP 52, "metainfo files" and "info dictionary"), up to the piece
//! length.

ghost use Rattle.std.specs.Prelude.{◌≡◌, ℕ, List, MatchResult, None, Some, codes};
ghost use Rattle.std.specs.Str.{IsUtf8};
ghost use Rattle.benc.specs.Value.{Bencode, int};
ghost use Rattle.benc.specs.View.{view, pairs_view};
ghost use Rattle.filetree.specs.Dictionary.{as_dict, as_int, as_text, get};
ghost use Rattle.filetree.specs.Names.{key_spelling};
ghost use Rattle.filetree.specs.Tests.{Passes};
ghost use Rattle.opening.specs.Opening.{AreKeys};
ghost use Rattle.opening.specs.Refusals.{head_rows, kind_rows, layers_in, layers_rows, number_in, piece_length_rows, present_rows, top_rows, info_rows, version_rows};
ghost use Rattle.opening.specs.Steps.{AreInfoKeys, ArePresent, pairs_seen};
ghost use Rattle.pieces.specs.Pieces.{IsPieceLength};

use benc::{Pair, Value};
use filetree::{Key, Refusal};
use pieces::PieceLength;
use std::str;

// The version of BitTorrent that is opened here, as `meta version` states it.
const META_VERSION: i64 = 2;

/// What the keys of a torrent file say.
#[derive(Drop)]
pub(crate) struct Keys<'v, 'a> {
    pub(crate) info: &'v Value<'a>,
    pub(crate) tree: &'v [Pair<'a>],
    pub(crate) name: &'a str,
    pub(crate) layers: Option<&'v [Pair<'a>]>,
    /// Not tested yet.
    pub(crate) piece_length: i64,
}

/// Tests the keys, but for what the piece length is.
pub(crate) fn read_keys<'v, 'a>(top: &'v Value<'a>) -> Result<Keys<'v, 'a>, Refusal>
    ensures { Passes (head_rows (view top.now)) (AreKeys (view top.now)) result }
{
    let info = info(top)?;
    let InfoKeys {
        tree,
        name,
        piece_length,
    } = read_info(info)?;
    let layers = layers(top)?;
    Ok(Keys {
        info,
        tree,
        name,
        layers,
        piece_length,
    })
}

/// Tests the piece length.
pub(crate) fn piece_length(number: i64) -> Result<PieceLength, Refusal>
    ensures { Passes (piece_length_rows (number_in (int number)))
        (λ n. (n ≡ number_in (int number)) × IsPieceLength n) result }
{
    if number < 0 {
        return Err(Refusal::PieceLength);
    }
    PieceLength::new(number as u64).ok_or(Refusal::PieceLength)
}

// The info dictionary.
fn info<'v, 'a>(top: &'v Value<'a>) -> Result<&'v Value<'a>, Refusal>
    ensures { Passes (top_rows (view top.now))
        (λ i. get (codes "info") (view top.now) ≡ Some (view i.now)) result }
{
    dictionary(top, Key::Top)?;
    let info = required(top, Key::Info)?;
    dictionary(info, Key::Info)?;
    Ok(info)
}

// The keys of the info dictionary, the version first.
fn read_info<'v, 'a>(info: &'v Value<'a>) -> Result<InfoKeys<'v, 'a>, Refusal>
    ensures { Passes (info_rows (view info.now)) (AreInfoKeys (view info.now)) result }
{
    version(info)?;
    let present = all_present(info)?;
    all_of_kind(present)
}

// Tests the version before all other keys of the info dictionary.
fn version(info: &Value<'_>) -> Result<(), Refusal>
    ensures { Passes (version_rows (view info.now)) (λ _. Unit {0}) result }
{
    let version = required(info, Key::MetaVersion)?;
    if integer(version, Key::MetaVersion)? != META_VERSION {
        return Err(Refusal::Version);
    }
    Ok(())
}

// The values of the other keys that have to be there.
struct Present<'v, 'a> {
    tree: &'v Value<'a>,
    name: &'v Value<'a>,
    piece_length: &'v Value<'a>,
}

// The values under the other keys, each of which has to be there.
fn all_present<'v, 'a>(info: &'v Value<'a>) -> Result<Present<'v, 'a>, Refusal>
    ensures { Passes (present_rows (view info.now)) (ArePresent (view info.now)) result }
{
    let tree = required(info, Key::FileTree)?;
    let name = required(info, Key::Name)?;
    let piece_length = required(info, Key::PieceLength)?;
    Ok(Present {
        tree,
        name,
        piece_length,
    })
}

// What the info dictionary says beside the version.
struct InfoKeys<'v, 'a> {
    tree: &'v [Pair<'a>],
    name: &'a str,
    piece_length: i64,
}

// What these values say, each of which has to be of its kind.
fn all_of_kind<'v, 'a>(values: Present<'v, 'a>) -> Result<InfoKeys<'v, 'a>, Refusal>
    ensures { (info : Bencode) → ArePresent info values.entry
        → Passes (kind_rows info) (AreInfoKeys info) result }
{
    let Present {
        tree,
        name,
        piece_length,
    } = values;
    let tree = dictionary(tree, Key::FileTree)?;
    let name = text(name, Key::Name)?;
    let piece_length = integer(piece_length, Key::PieceLength)?;
    Ok(InfoKeys {
        tree,
        name,
        piece_length,
    })
}

// The pairs of `piece layers`, which may be absent.
fn layers<'v, 'a>(top: &'v Value<'a>) -> Result<Option<&'v [Pair<'a>]>, Refusal>
    ensures { Passes (layers_rows (view top.now))
        (λ ls. pairs_seen ls ≡ layers_in (view top.now)) result }
{
    match top.get(Key::PieceLayers.text().as_bytes()) {
        Some(value) => Ok(Some(dictionary(value, Key::PieceLayers)?)),
        None => Ok(None),
    }
}

// The value under a key that has to be there.
fn required<'v, 'a>(v: &'v Value<'a>, key: Key) -> Result<&'v Value<'a>, Refusal>
    ensures { MatchResult result (λ w. get (key_spelling key) (view v.now) ≡ Some (view w.now))
        (λ r. (get (key_spelling key) (view v.now) ≡ None) × (r ≡ Refusal.Missing key)) }
{
    match v.get(key.text().as_bytes()) {
        Some(value) => Ok(value),
        None => Err(Refusal::Missing(key)),
    }
}

// The pairs of a dictionary.
fn dictionary<'v, 'a>(v: &'v Value<'a>, key: Key) -> Result<&'v [Pair<'a>], Refusal>
    ensures { MatchResult result (λ ps. as_dict (view v.now) ≡ Some (pairs_view ps.now))
        (λ r. (as_dict (view v.now) ≡ None) × (r ≡ Refusal.WrongType key)) }
{
    match v {
        Value::Dict(pairs) => Ok(pairs),
        _ => Err(Refusal::WrongType(key)),
    }
}

// An integer.
fn integer(v: &Value<'_>, key: Key) -> Result<i64, Refusal>
    ensures { MatchResult result (λ z. as_int (view v.now) ≡ Some z)
        (λ r. (as_int (view v.now) ≡ None) × (r ≡ Refusal.WrongType key)) }
{
    match v {
        Value::Int(number) => Ok(*number),
        _ => Err(Refusal::WrongType(key)),
    }
}

// A byte string that is UTF-8.
fn text<'a>(v: &Value<'a>, key: Key) -> Result<&'a str, Refusal>
    ensures { MatchResult result (λ s. (as_text (view v.now) ≡ Some s.now) × IsUtf8 s.now)
        (λ r. ((s : List ℕ) → as_text (view v.now) ≡ Some s → IsUtf8 s → ⊥)
        × (r ≡ Refusal.WrongType key)) }
{
    match v {
        Value::Bytes(bytes) => match str::from_utf8(bytes) {
            Ok(name) => Ok(name),
            Err(_) => Err(Refusal::WrongType(key)),
        },
        _ => Err(Refusal::WrongType(key)),
    }
}
