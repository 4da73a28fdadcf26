//! A file for a draft, whose bytes come in parts of any size.

ghost use Rattle.std.specs.Prelude.{◌≡◌, ◌≤◌, [], IfOk, OnErr, OnOk, length};
ghost use Rattle.drafting.specs.Stages.{HasSomeContent};

use crate::stage::Stage;
use gathering::{FileHashes, Hashing, TorrentKind};
use hashtree::NoMemory;
use std::alloc::Global;
use std::mem::replace;

/// A file for drafts of one kind. Its bytes come in parts of any size, until it is added to a draft
/// or refused by one: then it has all its bytes. Once memory was refused, every later call fails
/// again: no draft takes the file.
#[derive(Drop)]
pub struct ComingFile {
    kind: TorrentKind,
    stage: Stage,
    ghost given: { HasSomeContent kind.piece_length kind.hybrid stage },
}

impl ComingFile {
    ghost use Rattle.drafting.specs.Coming.{AreFoundIn, FeedsFile, FileTakesMemory, HasFileRefused, IsNewFile, IsOfSome, IsSameKind, KeepsWhole, file_bytes_left, is_for_hybrids, piece_length_of};

    /// A file of which nothing came yet, for drafts of this kind. It takes no memory.
    pub fn new(alloc: Global, kind: TorrentKind) -> ComingFile
        ensures { IsNewFile kind.piece_length kind.hybrid result }
    {
        let hashing = Hashing::new(alloc, &kind, None);
        ComingFile {
            kind,
            stage: Stage::Coming(hashing),
        }
    }

    /// The kind of the drafts that it is for.
    pub(crate) fn kind(&self) -> &TorrentKind
        ensures piece_length { result.now.piece_length ≡ piece_length_of self.now }
        ensures hybrid { result.now.hybrid ≡ is_for_hybrids self.now }
    {
        &self.kind
    }

    /// How many bytes may still come: 2^46 in all, and none once it was refused by a draft.
    pub fn left(&self) -> u64
        ensures { result ≡ file_bytes_left self.now }
    {
        self.stage.left()
    }

    /// Takes the file's next bytes. Condition: no more bytes come than [`ComingFile::left`] says.
    ///
    /// # Errors
    ///
    /// It fails only if memory for its digests was refused, in this call or an earlier one.
    pub fn push(&mut self, bytes: &[u8]) -> Result<(), NoMemory>
        requires { length bytes.now ≤ file_bytes_left self.old }
        ensures kind { IsSameKind self.old self.new }
        ensures fed { OnOk result (FeedsFile self.old bytes.now self.new) }
        ensures refused { OnErr result (HasFileRefused self.new) }
        ensures memory { OnErr result (FileTakesMemory self.old bytes.now) }
    {
        if let Err(refused) = self.stage.push(bytes) {
            self.stage = Stage::Refused;
            return Err(refused);
        }
        Ok(())
    }

    /// Ends the file, and gives what a draft is given of it. The file is to be given back by
    /// [`ComingFile::put_back`], or to begin anew.
    pub(crate) fn take_found(&mut self, alloc: Global) -> Result<FileHashes, NoMemory>
        ensures kind { IsSameKind self.old self.new }
        ensures found { IfOk result (AreFoundIn self.old) }
        ensures refused { HasFileRefused self.new }
        ensures memory { OnErr result (FileTakesMemory self.old []) }
    {
        let stage = replace(&mut self.stage, Stage::Refused);
        stage.found(alloc)
    }

    /// Puts back what was found: the file has all its bytes. Condition: it is of some content.
    pub(crate) fn put_back(&mut self, found: FileHashes)
        requires { IsOfSome self.old found }
        ensures kind { IsSameKind self.old self.new }
        ensures whole { KeepsWhole found self.new }
    {
        self.stage = Stage::Whole(found);
    }
}
