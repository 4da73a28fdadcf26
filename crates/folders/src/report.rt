//! What a check of a folder found.
ghost use Rattle.std.specs.Prelude.{◌≡◌, IsTrue, ◌↔◌, true};
ghost use Rattle.std.specs.List.{list_all};
ghost use Rattle.folders.specs.Verdicts.{is_good, is_yes, stream_is_good};

/// What a check found of one file.
#[derive(Clone, Copy, Debug, PartialEq, Eq, Drop)]
pub enum FileVerdict {
    /// Its content is the file.
    Good,
    /// Nothing has its name.
    Missing,
    /// The shelf, or the file before its end, failed.
    Unreadable,
    /// Its content has another length.
    WrongLength,
    /// Its content has the right length and another root. The number is the torrent's index of the
    /// first piece whose node is not the one of the piece layer, or of the file's only piece.
    Bad(u64),
}

/// What a check found of the version 1 pieces of a hybrid (BEP 3, "pieces"; BEP 47).
#[derive(Clone, Copy, Debug, PartialEq, Eq, Drop)]
pub enum V1Verdict {
    /// The digests of the pieces are those that the torrent lists.
    Good,
    /// The index of the first piece whose SHA-1 digest is another.
    Bad(u64),
    /// Some file is neither good nor bad, so there is no whole stream.
    NotChecked,
}

/// What a check found: a verdict for each file of the torrent, in order, and for a hybrid one on
/// its version 1 pieces.
#[derive(Debug, PartialEq, Drop)]
pub struct Report {
    /// A verdict for each file.
    pub files: Vec<FileVerdict>,
    /// The verdict on the version 1 pieces, if the torrent is a hybrid.
    pub v1: Option<V1Verdict>,
}

impl FileVerdict {
    /// Whether its content is the file.
    pub(crate) fn is_good(&self) -> bool
        ensures { result ≡ is_good self.now }
    {
        matches!(self, FileVerdict::Good)
    }
}

impl Report {
    /// Whether all verdicts are good.
    pub fn yes(&self) -> bool
        ensures { result ≡ is_yes self.now.files.items self.now.v1 }
    {
        all_good(&self.files) && stream_is_good(&self.v1)
    }
}

fn all_good(files: &[FileVerdict]) -> bool
    ensures { result ≡ list_all is_good files.now }
{
    files.iter().all(|verdict| verdict.is_good())
}

/// Whether there is no version 1 stream, or its pieces are good.
pub(crate) fn stream_is_good(v1: &Option<V1Verdict>) -> bool
    ensures { result ≡ stream_is_good v1.now }
{
    matches!(v1, None | Some(V1Verdict::Good))
}
