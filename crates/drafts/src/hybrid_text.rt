//! The text of a hybrid's version 1 part (BEP 3, "files", "length", "pieces"; BEP 47, "Padding
//! Files").

ghost use Rattle.std.specs.Prelude.{◌≡◌, ◌≤◌, ◌&&◌, ◌^◌, ℕ, Some, [], drop, if◌then◌else◌, map, nat_lt, slice_get};
ghost use Rattle.std.specs.List.{concat};
ghost use Rattle.std.specs.String.{string_bytes};
ghost use Rattle.benc.specs.Text.{items_spelling, spelling};
ghost use Rattle.benc.specs.Value.{item, no_items};
ghost use Rattle.drafts.specs.DraftSeen.{outline_file};
ghost use Rattle.drafts.specs.Outline.{OutlineFile};
ghost use Rattle.drafts.specs.Pen.{Put};
ghost use Rattle.drafts.specs.Written.{digests_of, entries_value, entry_value, filled_cuts, gap, has_content, is_single, pad_value, texts_value};

use crate::draft::DraftFile;
use crate::pen::Pen;
use benc::Sink;
use itoa::Buffer;
use pieces::PieceLength;

/// Whether there is one file, whose path is the torrent's name.
pub(crate) fn is_single(name: &str, files: &[DraftFile]) -> bool
    ensures { result ≡ is_single name.now (map outline_file files.now) }
{
    files.len() == 1 && files[0].path.len() == 1 && files[0].path[0].as_str() == name
}

/// Puts the entries of `files`, with their pads.
pub(crate) fn put_entries<W: Sink>(
    files: &[DraftFile],
    piece_length: PieceLength,
    pen: &mut Pen,
    w: &mut W,
)
    requires { (n : ℕ) (f : OutlineFile) → slice_get (map outline_file files.now) n ≡ Some f
        → f.length ≤ 2 ^ 46 }
    ensures { Put pen.old (W.seen w.old) pen.new (W.seen w.new)
        (items_spelling (entries_value piece_length (map outline_file files.now))) }
{
    let end = content_end(files);
    'files: for (i, file) in files.iter().enumerate() {
        put_entry(file, pen, w);
        put_pad(file, piece_length, i + 1 < end, pen, w);
    }
}

/// Puts the digests of the stream's cuts, joined.
pub(crate) fn put_digests<W: Sink>(files: &[DraftFile], pen: &mut Pen, w: &mut W)
    ensures { Put pen.old (W.seen w.old) pen.new (W.seen w.new)
        (concat (digests_of (map outline_file files.now))) }
{
    let end = content_end(files);
    'files: for (i, file) in files.iter().enumerate() {
        put_cuts(file, i + 1 < end, pen, w);
    }
}

// How many first files there are up to the last one that is not empty.
fn content_end(files: &[DraftFile]) -> usize
    ensures { (i : ℕ) → has_content (drop i (map outline_file files.now)) ≡ nat_lt i result }
{
    let mut end = 0;
    'files: for (i, file) in files.iter().enumerate() {
        if file.length > 0 {
            end = i + 1;
        }
    }
    end
}

// Puts the entry of a file.
fn put_entry<W: Sink>(file: &DraftFile, pen: &mut Pen, w: &mut W)
    ensures { Put pen.old (W.seen w.old) pen.new (W.seen w.new)
        (spelling (entry_value (outline_file file.now))) }
{
    pen.put(w, b"d6:length");
    pen.put_integer(w, file.length);
    pen.put(w, b"4:pathl");
    put_strings(&file.path, pen, w);
    pen.put(w, b"ee");
}

// Puts texts as byte strings.
fn put_strings<W: Sink>(parts: &[String], pen: &mut Pen, w: &mut W)
    ensures { Put pen.old (W.seen w.old) pen.new (W.seen w.new)
        (items_spelling (texts_value (map string_bytes parts.now))) }
{
    'parts: for part in parts {
        pen.put_string(w, part.as_bytes());
    }
}

// Puts the entry of a pad after a file that ends within a piece, if one that is not empty comes
// later.
fn put_pad<W: Sink>(
    file: &DraftFile,
    piece_length: PieceLength,
    is_followed: bool,
    pen: &mut Pen,
    w: &mut W,
)
    requires { file.now.length ≤ 2 ^ 46 }
    ensures { let zeros = gap piece_length file.now.length in
        Put pen.old (W.seen w.old) pen.new (W.seen w.new) (items_spelling
        (if nat_lt 0 zeros && is_followed then item (pad_value zeros) no_items else no_items)) }
{
    let zeros = piece_length.round_up(file.length) - file.length;
    if zeros > 0 && is_followed {
        put_zeros(zeros, pen, w);
    }
}

// Puts the entry of a pad of this many zeros.
fn put_zeros<W: Sink>(zeros: u64, pen: &mut Pen, w: &mut W)
    ensures { Put pen.old (W.seen w.old) pen.new (W.seen w.new) (spelling (pad_value zeros)) }
{
    let mut digits = Buffer::new();
    pen.put(w, b"d4:attr1:p6:length");
    pen.put_integer(w, zeros);
    pen.put(w, b"4:pathl4:.pad");
    pen.put_string(w, digits.format(zeros).as_bytes());
    pen.put(w, b"ee");
}

// Puts the digests of a file's cuts, the last one filled up with zeros if a file that is not
// empty comes later.
fn put_cuts<W: Sink>(file: &DraftFile, is_followed: bool, pen: &mut Pen, w: &mut W)
    ensures { let f = outline_file file.now in
        Put pen.old (W.seen w.old) pen.new (W.seen w.new) (concat
        (if nat_lt 0 f.length then (if is_followed then filled_cuts f else f.cuts) else [])) }
{
    if file.length == 0 {
        return;
    }
    if is_followed {
        let whole = file.cuts.len().saturating_sub(1);
        pen.put(w, file.cuts[..whole].as_flattened());
        pen.put(w, &file.padded);
    } else {
        pen.put(w, file.cuts.as_flattened());
    }
}
