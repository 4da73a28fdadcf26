//! What a torrent holds, line by line.
ghost use Rattle.std.specs.Prelude.{◌≡◌, length, map, option_map};
ghost use Rattle.benc.specs.Device.{Wrote, WroteAndFlushed};
ghost use Rattle.lines.specs.Rows.{spell};
ghost use Rattle.lines.specs.Table.{files_row, hash_v2_row, name_row, piece_length_row};
ghost use Rattle.opening.specs.Seen.{file_entry, tree_entry};
ghost use Rattle.torrent_lines.specs.Rows.{entry_row, entry_rows, show_rows, show_text, tree_root, v1_hash_rows};

use benc::{DeviceFault, Sink, WriteFault};
use hashtree::Hash;
use lines::{Line, LineSink, Shown, finish_after, say};
use opening::{File, Torrent, TreeInfo};

/// Writes what a torrent holds, and flushes: its name, piece length and info-hashes, how many files
/// it has, and for each file its length, root and path. It takes no memory. After `WriteFault` a
/// prefix of these lines went out.
pub fn show<W: Sink>(t: &Torrent<'_>, out: &mut W) -> Result<(), WriteFault>
    ensures { WroteAndFlushed (W.seen out.old) (W.seen out.new) result (show_text t.now) }
{
    show_onto(t, out)
}

/// Does what `show` does, onto what takes lines.
pub fn show_onto<L: LineSink>(t: &Torrent<'_>, out: &mut L) -> Result<(), WriteFault>
    ensures { WroteAndFlushed (L.seen out.old) (L.seen out.new) result
        (spell L.spelled (show_rows t.now)) }
{
    let said = say_torrent(t, out);
    finish_after(out, said)
}

fn say_torrent<L: LineSink>(t: &Torrent<'_>, out: &mut L) -> Result<(), DeviceFault>
    ensures { Wrote (L.seen out.old) (L.seen out.new) result (spell L.spelled (show_rows t.now)) }
{
    say_name(t, out)?;
    say_piece_length(t, out)?;
    say_hash(t, out)?;
    say_hybrid(t, out)?;
    say_count(t, out)?;
    say_files(t.files(), t.trees(), out)
}

fn say_name<L: LineSink>(t: &Torrent<'_>, out: &mut L) -> Result<(), DeviceFault>
    ensures { Wrote (L.seen out.old) (L.seen out.new) result (L.spelled (name_row t.now.name)) }
{
    say(&Line::Shown(Shown::Name(t.name())), out)
}

fn say_piece_length<L: LineSink>(t: &Torrent<'_>, out: &mut L) -> Result<(), DeviceFault>
    ensures { Wrote (L.seen out.old) (L.seen out.new) result
        (L.spelled (piece_length_row t.now.piece_length)) }
{
    say(&Line::Shown(Shown::PieceLength(t.piece_length())), out)
}

fn say_hash<L: LineSink>(t: &Torrent<'_>, out: &mut L) -> Result<(), DeviceFault>
    ensures { Wrote (L.seen out.old) (L.seen out.new) result
        (L.spelled (hash_v2_row t.now.info_hash_v2)) }
{
    let hash = t.info_hash_v2();
    say(&Line::Shown(Shown::InfoHashV2(&hash)), out)
}

// The version 1 info-hash, for a hybrid alone.
fn say_hybrid<L: LineSink>(t: &Torrent<'_>, out: &mut L) -> Result<(), DeviceFault>
    ensures { Wrote (L.seen out.old) (L.seen out.new) result
        (spell L.spelled (v1_hash_rows t.now.v1 t.now.info_hash_v1)) }
{
    if t.v1().is_none() {
        return Ok(());
    }
    let hash = t.info_hash_v1();
    say(&Line::Shown(Shown::InfoHashV1(&hash)), out)
}

fn say_count<L: LineSink>(t: &Torrent<'_>, out: &mut L) -> Result<(), DeviceFault>
    ensures { Wrote (L.seen out.old) (L.seen out.new) result
        (L.spelled (files_row (length t.now.files))) }
{
    say(&Line::Shown(Shown::Files(t.files().len() as u64)), out)
}

fn say_files<L: LineSink>(
    files: &[File<'_>],
    trees: &[TreeInfo<'_>],
    out: &mut L,
) -> Result<(), DeviceFault>
    ensures { Wrote (L.seen out.old) (L.seen out.new) result
        (spell L.spelled (entry_rows (map tree_entry trees.now) (map file_entry files.now))) }
{
    'files: for file in files {
        say_file(file, trees, out)?;
    }
    Ok(())
}

fn say_file<L: LineSink>(
    file: &File<'_>,
    trees: &[TreeInfo<'_>],
    out: &mut L,
) -> Result<(), DeviceFault>
    ensures { Wrote (L.seen out.old) (L.seen out.new) result
        (L.spelled (entry_row (map tree_entry trees.now) (file_entry file.now))) }
{
    let path = file.path.parts();
    let shown = Shown::File {
        length: file.length,
        root: root_of(trees, file.tree),
        path: &path,
    };
    say(&Line::Shown(shown), out)
}

// The root of a file by the number of its tree.
fn root_of<'a>(trees: &'a [TreeInfo<'_>], tree: Option<usize>) -> Option<&'a Hash>
    ensures { option_map (λ r. r.now) result ≡ tree_root (map tree_entry trees.now) tree }
{
    match tree {
        Some(number) if number < trees.len() => Some(&trees[number].root),
        _ => None,
    }
}
