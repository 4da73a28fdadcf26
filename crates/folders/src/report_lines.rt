//! The lines of a report: which are wanted, how they are said, and how they are read again at the
//! front of a text.
ghost use Rattle.std.specs.Prelude.{◌≡◌, length, is_some, map, ◌++◌, MatchOption};
ghost use Rattle.benc.specs.Device.{WroteAndFlushed, Wrote};
ghost use Rattle.folders.specs.Printed.{answer_row, end_rows, version1_rows, is_wanted, report_rows, report_text, stream_rows, verdict_row, verdicts_rows, version1_row, wanted_rows};
ghost use Rattle.lines.specs.Reading.{BeginsWith};
ghost use Rattle.lines.specs.Rows.{spell};
ghost use Rattle.lines.specs.Table.{row_of};
ghost use Rattle.lines.specs.Texts.{text_of};
ghost use Rattle.opening.specs.Description.{FileEntry};
ghost use Rattle.opening.specs.Seen.{file_entry};

use crate::report::{FileVerdict, Report, V1Verdict, stream_is_good};
use benc::{DeviceFault, Sink, WriteFault};
use lines::{Checked, Line, LineSink, finish_after, say, strip_line};
use opening::{File, Torrent};

/// Which lines of a report are wanted.
#[derive(Clone, Copy, Debug, PartialEq, Eq, Drop)]
pub enum Lines {
    /// All.
    All,
    /// Those of what is not good, and the last one.
    NotGood,
}

impl Lines {
    /// Whether the line of what is good, or is not, is wanted.
    pub(crate) fn include(self, is_good: bool) -> bool
        ensures { result ≡ is_wanted self is_good }
    {
        match self {
            Lines::All => true,
            Lines::NotGood => !is_good,
        }
    }
}

/// Writes what a check of this torrent's folder found, and flushes: a line for each file, for a
/// hybrid a line on its version 1 pieces, and `yes` or `no`. It takes no memory. After `WriteFault`
/// a prefix of these lines went out. Conditions: the report has a verdict for each file of the
/// torrent, and one on the version 1 pieces exactly if the torrent is a hybrid.
pub fn print_report<W: Sink>(
    report: &Report,
    torrent: &Torrent<'_>,
    out: &mut W,
) -> Result<(), WriteFault>
    requires files { length report.now.files.items ≡ length torrent.now.files }
    requires hybrid { is_some report.now.v1 ≡ is_some torrent.now.v1 }
    ensures { WroteAndFlushed (W.seen out.old) (W.seen out.new) result
        (report_text Lines.All torrent.now.files report.now.files.items report.now.v1) }
{
    say_report(report, torrent, out)
}

/// Does what `print_report` does, but the lines go to anything that takes lines, spelled as it
/// spells them: as texts, or as JSON objects.
pub fn say_report<L: LineSink>(
    report: &Report,
    torrent: &Torrent<'_>,
    out: &mut L,
) -> Result<(), WriteFault>
    requires files { length report.now.files.items ≡ length torrent.now.files }
    requires hybrid { is_some report.now.v1 ≡ is_some torrent.now.v1 }
    ensures { WroteAndFlushed (L.seen out.old) (L.seen out.new) result (spell L.spelled
        (report_rows Lines.All torrent.now.files report.now.files.items report.now.v1)) }
{
    let said = say_all(report, torrent.files(), out);
    finish_after(out, said)
}

fn say_all<L: LineSink>(report: &Report, files: &[File<'_>], out: &mut L) -> Result<(), DeviceFault>
    requires { length report.now.files.items ≡ length files.now }
    ensures { Wrote (L.seen out.old) (L.seen out.new) result (spell L.spelled
        (report_rows Lines.All (map file_entry files.now) report.now.files.items report.now.v1)) }
{
    say_verdicts(&report.files, files, out)?;
    say_end(report, Lines::All, out)
}

/// Says what follows the lines of the files: for a hybrid the line on its version 1 pieces, if it
/// is wanted, and `yes` or `no`. After a fault a prefix of it went out.
pub fn say_end<L: LineSink>(report: &Report, lines: Lines, out: &mut L) -> Result<(), DeviceFault>
    ensures { Wrote (L.seen out.old) (L.seen out.new) result
        (spell L.spelled (end_rows lines report.now.files.items report.now.v1)) }
{
    say_stream(lines, &report.v1, out)?;
    say_answer(report.yes(), out)
}

fn say_verdicts<L: LineSink>(
    verdicts: &[FileVerdict],
    files: &[File<'_>],
    out: &mut L,
) -> Result<(), DeviceFault>
    requires { length verdicts.now ≡ length files.now }
    ensures { Wrote (L.seen out.old) (L.seen out.new) result
        (spell L.spelled (verdicts_rows Lines.All verdicts.now (map file_entry files.now))) }
{
    'files: for i in 0..files.len() {
        say_verdict(verdicts[i], &files[i], out)?;
    }
    Ok(())
}

/// Says the line of a file, if it is wanted. After a fault a prefix of it went out.
pub fn say_wanted<L: LineSink>(
    lines: Lines,
    verdict: FileVerdict,
    file: &File<'_>,
    out: &mut L,
) -> Result<(), DeviceFault>
    ensures { Wrote (L.seen out.old) (L.seen out.new) result
        (spell L.spelled (wanted_rows lines verdict (file_entry file.now))) }
{
    if lines.include(verdict.is_good()) {
        say_verdict(verdict, file, out)
    } else {
        Ok(())
    }
}

/// Says the line of a file: its verdict and its path. After a fault a prefix of it went out.
pub fn say_verdict<L: LineSink>(
    verdict: FileVerdict,
    file: &File<'_>,
    out: &mut L,
) -> Result<(), DeviceFault>
    ensures { Wrote (L.seen out.old) (L.seen out.new) result
        (L.spelled (verdict_row verdict (file_entry file.now))) }
{
    say(&verdict_line(verdict, &file.path.parts()), out)
}

// Says the line of the version 1 pieces, if there is one and it is wanted.
fn say_stream<L: LineSink>(
    lines: Lines,
    v1: &Option<V1Verdict>,
    out: &mut L,
) -> Result<(), DeviceFault>
    ensures { Wrote (L.seen out.old) (L.seen out.new) result
        (spell L.spelled (stream_rows lines v1.now)) }
{
    if lines.include(stream_is_good(v1)) {
        say_version1(v1, out)
    } else {
        Ok(())
    }
}

/// Says the line of the version 1 pieces, if there is one. After a fault a prefix of it went out.
pub fn say_version1<L: LineSink>(v1: &Option<V1Verdict>, out: &mut L) -> Result<(), DeviceFault>
    ensures { Wrote (L.seen out.old) (L.seen out.new) result
        (spell L.spelled (version1_rows v1.now)) }
{
    match v1 {
        None => Ok(()),
        Some(verdict) => say(&version1_line(*verdict), out),
    }
}

fn say_answer<L: LineSink>(yes: bool, out: &mut L) -> Result<(), DeviceFault>
    ensures { Wrote (L.seen out.old) (L.seen out.new) result (L.spelled (answer_row yes)) }
{
    if yes {
        say(&Line::Checked(Checked::Yes), out)
    } else {
        say(&Line::Checked(Checked::No), out)
    }
}

// The line of a file with this verdict and this path.
fn verdict_line<'a>(verdict: FileVerdict, path: &'a [&'a str]) -> Line<'a>
    ensures { (f : FileEntry) → f.path ≡ map (λ s. s.now) path.now
        → row_of result ≡ verdict_row verdict f }
{
    match verdict {
        FileVerdict::Good => Line::Checked(Checked::Good(path)),
        FileVerdict::Missing => Line::Checked(Checked::Missing(path)),
        FileVerdict::Unreadable => Line::Checked(Checked::Unreadable(path)),
        FileVerdict::WrongLength => Line::Checked(Checked::WrongLength(path)),
        FileVerdict::Bad(piece) => Line::Checked(Checked::Bad { piece, path }),
    }
}

// The line of the version 1 pieces.
fn version1_line(verdict: V1Verdict) -> Line<'static>
    ensures { row_of result ≡ version1_row verdict }
{
    match verdict {
        V1Verdict::Good => Line::Checked(Checked::V1Good),
        V1Verdict::Bad(piece) => Line::Checked(Checked::V1Bad(piece)),
        V1Verdict::NotChecked => Line::Checked(Checked::V1NotChecked),
    }
}

/// What stands behind the line of a file with this verdict, if a text begins with the line. It
/// takes no memory.
pub fn strip_verdict<'a>(verdict: FileVerdict, file: &File<'_>, text: &'a [u8]) -> Option<&'a [u8]>
    ensures { let line = text_of (verdict_row verdict (file_entry file.now)) in
        MatchOption result (BeginsWith line text.now → ⊥) (λ rest. text.now ≡ line ++ rest.now) }
{
    strip_line(&verdict_line(verdict, &file.path.parts()), text)
}

/// What stands behind the line of the version 1 pieces, if a text begins with it; all of the text,
/// if there is no such line. It takes no memory.
pub fn strip_version1<'a>(v1: &Option<V1Verdict>, text: &'a [u8]) -> Option<&'a [u8]>
    ensures { let line = spell text_of (version1_rows v1.now) in
        MatchOption result (BeginsWith line text.now → ⊥) (λ rest. text.now ≡ line ++ rest.now) }
{
    match v1 {
        None => Some(text),
        Some(verdict) => strip_line(&version1_line(*verdict), text),
    }
}
