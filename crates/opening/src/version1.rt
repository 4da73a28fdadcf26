//! The version 1 part of a hybrid (BEP 3, "info dictionary"; BEP 47, "Padding Files"; BEP 52,
//! "Upgrade Path"): its list of files and pads, how these lie in the stream that their contents
//! join to, and the digests of the stream's cuts.

ghost use Rattle.std.specs.Prelude.{◌≡◌, ◌+◌, ◌^◌, ◌≤◌, ◌&&◌, List, map, option_map};
ghost use Rattle.benc.specs.View.{view, items_view};
ghost use Rattle.filetree.specs.Dictionary.{get};
ghost use Rattle.filetree.specs.FileTree.{length_at, length_of};
ghost use Rattle.opening.specs.Matching.{FitsStream, after_entry, aligned_length, are_same, are_texts, ends_of, many_lengths, one_length, stream_at, is_entry_of, is_length, is_misplaced, is_path_value, is_sized, is_text, nowhere};
ghost use Rattle.filetree.specs.declared.files.ListedFile.{ListedFile};
ghost use Rattle.opening.specs.Refusals.{hybrid_rows};
ghost use Rattle.opening.specs.Seen.{file_entry, version1};
ghost use Rattle.filetree.specs.Tests.{Passes};
ghost use Rattle.opening.specs.Stream.{IsVersion1, is_named};

use crate::digests::digests;
use crate::torrent::File;
use benc::Value;
use filetree::{Refusal, has_attribute, length};
use pieces::{PieceLength, V1};

// The letter of `attr` that marks a pad file (BEP 47, "Extended File Attributes").
const PAD: u8 = b'p';

/// The version 1 part of an info dictionary whose file tree has these files; `None` if it has no
/// `pieces`.
///
/// Refuses `HybridFiles` if the version 1 list is malformed or, without its pads, not that of the
/// file tree, then `HybridAlign` if a file that is not empty begins elsewhere than at its first
/// piece or the stream goes on after the last piece, then `HybridPieces` if `pieces` is not one
/// SHA-1 digest for each cut. Takes no memory.
pub(crate) fn version1<'a>(
    info: &Value<'a>,
    name: &str,
    files: &[File<'_>],
    piece_length: PieceLength,
) -> Result<Option<V1<'a>>, Refusal>
    ensures { (fs : List ListedFile) → FitsStream piece_length (map file_entry files.now) fs
        → Passes (hybrid_rows piece_length (view info.now) name.now fs)
        (λ v. IsVersion1 piece_length (view info.now) name.now (option_map version1 v)) result }
{
    let Some(pieces) = info.get(b"pieces") else {
        return Ok(None);
    };
    let total = stream(info, name, files, piece_length)?;
    let Some(pieces) = digests(pieces, piece_length.pieces(total)) else {
        return Err(Refusal::HybridPieces);
    };
    Ok(Some(V1 { pieces, total }))
}

// Whether the value is this byte string.
fn is_text(value: &Value<'_>, text: &str) -> bool
    ensures { result ≡ is_text (view value.now) text.now }
{
    match value {
        Value::Bytes(bytes) => *bytes == text.as_bytes(),
        _ => false,
    }
}

// Whether the entry is a dictionary with a length.
fn is_sized(entry: &Value<'_>) -> bool
    ensures { result ≡ is_sized (view entry.now) }
{
    matches!(entry, Value::Dict(_)) && length(entry).is_some()
}

// Whether the values are exactly these byte strings.
fn are_texts(values: &[Value<'_>], texts: &[&str]) -> bool
    ensures { result ≡ are_texts (items_view values.now) (map (λ s. s.now) texts.now) }
{
    let mut next = 0;
    'values: for value in values {
        if next == texts.len() {
            return false;
        }
        if !is_text(value, texts[next]) {
            return false;
        }
        next += 1;
    }
    next == texts.len()
}

// Whether the value is a list of exactly these byte strings, at least one.
fn is_path_value(value: Option<&Value<'_>>, path: &[&str]) -> bool
    ensures { result
        ≡ is_path_value (map (λ s. s.now) path.now) (option_map (λ v. view v.now) value.entry) }
{
    match value {
        Some(Value::List(components)) => !path.is_empty() && are_texts(components, path),
        _ => false,
    }
}

// Whether the entry has the length and the path of the file.
fn is_entry_of(entry: &Value<'_>, file: &File<'_>) -> bool
    ensures { result ≡ is_entry_of (view entry.now) (file_entry file.now) }
{
    length(entry) == Some(file.length) && is_path_value(entry.get(b"path"), &file.path.parts())
}

// Whether the entries are dictionaries with a length, and those that are no pads exactly
// these files in their order.
fn are_same(entries: &[Value<'_>], files: &[File<'_>]) -> bool
    ensures { result ≡ are_same (items_view entries.now) (map file_entry files.now) }
{
    let mut next = 0;
    'entries: for entry in entries {
        if !is_sized(entry) {
            return false;
        }
        if !has_attribute(entry, PAD) {
            if next == files.len() {
                return false;
            }
            if !is_entry_of(entry, &files[next]) {
                return false;
            }
            next += 1;
        }
    }
    next == files.len()
}

// The stream's length so far in bytes, and where the last piece of its files so far ends.
#[derive(Clone, Copy)]
struct Ends {
    stream: u128,
    pieces: u128,
}

// The length of an entry in bytes, 0 if it has none.
fn entry_length(entry: &Value<'_>) -> u64
    ensures value { result ≡ length_of (view entry.now) }
    ensures bound { result ≤ 2 ^ 46 }
{
    length(entry).unwrap_or(0)
}

// Whether the entry is a file that is not empty and begins elsewhere than at a piece of its
// own.
fn is_misplaced(entry: &Value<'_>, ends: Ends) -> bool
    ensures { result ≡ is_misplaced (view entry.now) ends }
{
    !has_attribute(entry, PAD) && entry_length(entry) > 0 && ends.stream != ends.pieces
}

// The ends after this entry.
fn after_entry(entry: &Value<'_>, piece_length: PieceLength, ends: Ends) -> Ends
    requires stream { ends.stream ≤ 2 ^ 120 }
    requires pieces { ends.pieces ≤ 2 ^ 120 }
    ensures value { result ≡ after_entry piece_length (view entry.now) ends }
    ensures stream { result.stream ≤ ends.stream + 2 ^ 47 }
    ensures pieces { result.pieces ≤ ends.pieces + 2 ^ 47 }
{
    let length = entry_length(entry);
    let stream = ends.stream + u128::from(length);
    let pieces = if has_attribute(entry, PAD) {
        ends.pieces
    } else {
        ends.pieces + u128::from(piece_length.round_up(length))
    };
    Ends { stream, pieces }
}

// Where the stream of the entries ends, and the last piece of their files; `None` if a file is
// misplaced.
fn ends_of(entries: &[Value<'_>], piece_length: PieceLength) -> Option<Ends>
    ensures { result ≡ ends_of piece_length (items_view entries.now) nowhere }
{
    let mut ends = Ends {
        stream: 0,
        pieces: 0,
    };
    'entries: for entry in entries {
        if is_misplaced(entry, ends) {
            return None;
        }
        ends = after_entry(entry, piece_length, ends);
    }
    Some(ends)
}

// The length of the stream in bytes; `None` if a file is misplaced, or the stream goes on after the
// last piece.
fn aligned_length(entries: &[Value<'_>], piece_length: PieceLength) -> Option<u64>
    ensures { result ≡ aligned_length (ends_of piece_length (items_view entries.now) nowhere) }
{
    let ends = ends_of(entries, piece_length)?;
    if ends.pieces < ends.stream {
        return None;
    }
    u64::try_from(ends.stream).ok()
}

// Whether the path is this name alone.
fn is_named(path: &[&str], name: &str) -> bool
    ensures { result ≡ is_named name.now (map (λ s. s.now) path.now) }
{
    match path {
        [only] => only.as_bytes() == name.as_bytes(),
        _ => false,
    }
}

// Whether the info dictionary has the length of the file, and the file's path is this name alone.
fn is_only(info: &Value<'_>, name: &str, file: &File<'_>) -> bool
    ensures { result ≡ is_length file.now.length (length_at (view info.now))
        && is_named name.now (file_entry file.now).path }
{
    length(info) == Some(file.length) && is_named(&file.path.parts(), name)
}

// The length of the stream of the one file of `length`, if the file tree has just that.
fn one_file(info: &Value<'_>, name: &str, files: &[File<'_>]) -> Option<u64>
    ensures { result ≡ one_length (view info.now) name.now (map file_entry files.now) }
{
    match files {
        [file] if is_only(info, name, file) => Some(file.length),
        _ => None,
    }
}

// The length of the stream of the entries of `files`, if the file tree has just their files.
fn many_files(
    entries: &[Value<'_>],
    files: &[File<'_>],
    piece_length: PieceLength,
) -> Result<u64, Refusal>
    ensures { result
        ≡ many_lengths piece_length (items_view entries.now) (map file_entry files.now) }
{
    if !are_same(entries, files) {
        return Err(Refusal::HybridFiles);
    }
    aligned_length(entries, piece_length).ok_or(Refusal::HybridAlign)
}

// The length of the stream in bytes, if the list without pads is that of the file tree and each
// file begins at its first piece.
fn stream(
    info: &Value<'_>,
    name: &str,
    files: &[File<'_>],
    piece_length: PieceLength,
) -> Result<u64, Refusal>
    ensures { result ≡ stream_at piece_length (view info.now) name.now (map file_entry files.now) }
{
    match (info.get(b"length"), info.get(b"files")) {
        (Some(_), None) => one_file(info, name, files).ok_or(Refusal::HybridFiles),
        (None, Some(Value::List(entries))) => many_files(entries, files, piece_length),
        _ => Err(Refusal::HybridFiles),
    }
}
