//! The text of a draft's file tree, file by file (BEP 52, "file tree").

ghost use Rattle.std.specs.Prelude.{◌≡◌, ◌<◌, ◌≤◌, codes, if◌then◌else◌, length, map, nat_lt};
ghost use Rattle.std.specs.String.{string_bytes};
ghost use Rattle.benc.specs.Text.{pairs_spelling};
ghost use Rattle.benc.specs.Value.{no_pairs, pair, text};
ghost use Rattle.filetree.specs.Paths.{AreInOrder};
ghost use Rattle.drafts.specs.DraftSeen.{outline_file};
ghost use Rattle.drafts.specs.Outline.{OutlineFile};
ghost use Rattle.drafts.specs.Pen.{Put};
ghost use Rattle.drafts.specs.TreeText.{closed, opened, shared};
ghost use Rattle.drafts.specs.Written.{file_tree_of, file_value};

use crate::draft::DraftFile;
use crate::pen::Pen;
use benc::Sink;

/// Puts the tree's pairs: from each file to the next, the directories that the two paths do not
/// share are closed, and those of the next are opened.
pub(crate) fn put_tree<W: Sink>(files: &[DraftFile], pen: &mut Pen, w: &mut W)
    requires { AreInOrder (map (λ (f : OutlineFile). f.path) (map outline_file files.now)) }
    ensures { Put pen.old (W.seen w.old) pen.new (W.seen w.new)
        (pairs_spelling (file_tree_of (map outline_file files.now))) }
{
    let mut before: &[String] = &[];
    'files: for file in files {
        let path = file.path.as_slice();
        let kept = shared_count(before, path);
        put_ends(before.len() - kept, pen, w);
        put_opened(&path[kept..], pen, w);
        put_file(file, pen, w);
        before = path;
    }
    put_ends(before.len(), pen, w);
}

// How many first components two paths share.
fn shared_count(one: &[String], other: &[String]) -> usize
    ensures value { result ≡ shared (map string_bytes one.now) (map string_bytes other.now) }
    ensures below_one { result ≤ length one.now }
    ensures below_other { result ≤ length other.now }
{
    let count = one.len().min(other.len());
    'parts: for i in 0..count {
        if one[i] != other[i] {
            return i;
        }
    }
    count
}

// Ends this many dictionaries.
fn put_ends<W: Sink>(count: usize, pen: &mut Pen, w: &mut W)
    ensures { Put pen.old (W.seen w.old) pen.new (W.seen w.new) (closed count) }
{
    'ends: for _ in 0..count {
        pen.put(w, b"e");
    }
}

// Begins directories of these names, each inside the one before it.
fn put_opened<W: Sink>(names: &[String], pen: &mut Pen, w: &mut W)
    ensures { Put pen.old (W.seen w.old) pen.new (W.seen w.new)
        (opened (map string_bytes names.now)) }
{
    'names: for name in names {
        pen.put_string(w, name.as_bytes());
        pen.put(w, b"d");
    }
}

// Puts a file's dictionary, under the key of no bytes.
fn put_file<W: Sink>(file: &DraftFile, pen: &mut Pen, w: &mut W)
    ensures { Put pen.old (W.seen w.old) pen.new (W.seen w.new)
        (pairs_spelling (pair (codes "") (file_value (outline_file file.now)) no_pairs)) }
{
    pen.put(w, b"0:d6:length");
    pen.put_integer(w, file.length);
    put_root(file, pen, w);
    pen.put(w, b"e");
}

// Puts the root of a file that is not empty.
fn put_root<W: Sink>(file: &DraftFile, pen: &mut Pen, w: &mut W)
    ensures { Put pen.old (W.seen w.old) pen.new (W.seen w.new) (pairs_spelling
        (if nat_lt 0 file.now.length then pair (codes "pieces root") (text file.now.root) no_pairs
        else no_pairs)) }
{
    if file.length > 0 {
        pen.put(w, b"11:pieces root");
        pen.put_string(w, &file.root);
    }
}
