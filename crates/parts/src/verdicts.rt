//! What is said of a file and of its version 1 pieces, also of several files at once; and how what
//! parts say is joined.
ghost use Rattle.std.specs.Prelude.{◌≡◌, ℕ, ◌+◌, ◌<◌, length, min, slice_get, is_some, IfOk, IfSome, Some};
ghost use Rattle.folders.specs.declared.report.FileVerdict.{FileVerdict as OfFile};
ghost use Rattle.folders.specs.declared.report.V1Verdict.{V1Verdict as OfV1};
ghost use Rattle.parts.specs.Saying.{IsSmallFrom, file_says, v1_says};
ghost use Rattle.parts.specs.Worse.{worse, worse_v1};

use crate::row::Read;
use benc::DeviceFault;
use folders::{FileVerdict, Report, V1Verdict};
use opening::File;

/// What a part says of a file, and of the version 1 pieces that begin with the file's pieces.
#[derive(Clone, Copy)]
pub(crate) struct Verdicts {
    /// On the file.
    pub(crate) file: FileVerdict,
    /// On the version 1 pieces.
    pub(crate) v1: V1Verdict,
}

impl Verdicts {
    ghost use Rattle.parts.specs.Saying.{HasSmallPieces, IsNotWhole, SaysVisit};

    /// Of a file that has no place among the part's.
    pub(crate) fn of_other() -> Verdicts
        ensures file { result.file ≡ FileVerdict.Good }
        ensures v1 { result.v1 ≡ V1Verdict.Good }
    {
        Verdicts {
            file: FileVerdict::Good,
            v1: V1Verdict::Good,
        }
    }

    /// Of a file that is missing, unreadable, or of another length.
    pub(crate) fn not_whole(file: FileVerdict) -> Verdicts
        ensures { IsNotWhole file result }
    {
        Verdicts {
            file,
            v1: V1Verdict::NotChecked,
        }
    }

    /// Of a file that was visited. One that was read whole is judged by its root, too.
    pub(crate) fn of_visit(
        file: &File<'_>,
        visited: Result<Option<Read>, DeviceFault>,
        by_root: bool,
    ) -> Verdicts
        requires { IfOk visited (λ o. IfSome o (HasSmallPieces file.now.first_piece)) }
        ensures { SaysVisit by_root file.now.first_piece visited result }
    {
        match visited {
            Ok(Some(Ok(Some(found)))) => Verdicts {
                file: file_verdict(file.first_piece, by_root && found.root_is, found.bad),
                v1: v1_verdict(file.first_piece, found.bad_cut),
            },
            Ok(Some(Ok(None))) => Verdicts::not_whole(FileVerdict::WrongLength),
            Ok(None) => Verdicts::not_whole(FileVerdict::Missing),
            Ok(Some(Err(_))) | Err(_) => Verdicts::not_whole(FileVerdict::Unreadable),
        }
    }
}

// The verdict on a file that begins at this piece: it is good if its root is the tree's, and else
// of the first of its own pieces that is bad.
fn file_verdict(first: u64, root_is: bool, bad: Option<u64>) -> FileVerdict
    requires { IsSmallFrom first bad }
    ensures { result ≡ file_says first root_is bad }
{
    match bad {
        Some(number) if !root_is => FileVerdict::Bad(first + number),
        _ => FileVerdict::Good,
    }
}

// The same of the version 1 pieces.
fn v1_verdict(first: u64, bad: Option<u64>) -> V1Verdict
    requires { IsSmallFrom first bad }
    ensures { result ≡ v1_says first bad }
{
    match bad {
        Some(number) => V1Verdict::Bad(first + number),
        None => V1Verdict::Good,
    }
}

/// The worse of two verdicts on a file: missing, unreadable, of a wrong length, bad at the earlier
/// piece, good.
pub fn worse(a: FileVerdict, b: FileVerdict) -> FileVerdict
    ensures { result ≡ worse a b }
{
    match (a, b) {
        (FileVerdict::Missing, _) | (_, FileVerdict::Missing) => FileVerdict::Missing,
        (FileVerdict::Unreadable, _) | (_, FileVerdict::Unreadable) => FileVerdict::Unreadable,
        (FileVerdict::WrongLength, _) | (_, FileVerdict::WrongLength) => FileVerdict::WrongLength,
        (FileVerdict::Bad(p), FileVerdict::Bad(q)) => FileVerdict::Bad(p.min(q)),
        (FileVerdict::Good, other) => other,
        (bad, FileVerdict::Good) => bad,
    }
}

/// The worse of two verdicts on the version 1 pieces: not checked, bad at the earlier piece, good.
pub fn worse_v1(a: V1Verdict, b: V1Verdict) -> V1Verdict
    ensures { result ≡ worse_v1 a b }
{
    match (a, b) {
        (V1Verdict::NotChecked, _) | (_, V1Verdict::NotChecked) => V1Verdict::NotChecked,
        (V1Verdict::Bad(p), V1Verdict::Bad(q)) => V1Verdict::Bad(p.min(q)),
        (V1Verdict::Good, other) => other,
        (bad, V1Verdict::Good) => bad,
    }
}

/// Joins what one more part reports to a report: each verdict becomes the worse of the two.
/// Condition: both are of one torrent.
pub fn join(report: &mut Report, part: &Report)
    requires files { length report.old.files.items ≡ length part.now.files.items }
    requires hybrid { is_some report.old.v1 ≡ is_some part.now.v1 }
    ensures count { length report.new.files.items ≡ length report.old.files.items }
    ensures each { (n : ℕ) (v w : OfFile) → slice_get report.old.files.items n ≡ Some v
        → slice_get part.now.files.items n ≡ Some w
        → slice_get report.new.files.items n ≡ Some (worse v w) }
    ensures hybrid { is_some report.new.v1 ≡ is_some report.old.v1 }
    ensures version1 { (v w : OfV1) → report.old.v1 ≡ Some v → part.now.v1 ≡ Some w
        → report.new.v1 ≡ Some (worse_v1 v w) }
{
    let count = report.files.len();
    'files: for i in 0..count {
        let joined = worse(report.files[i], part.files[i]);
        report.files[i] = joined;
    }
    if let (Some(a), Some(b)) = (report.v1, part.v1) {
        report.v1 = Some(worse_v1(a, b));
    }
}
