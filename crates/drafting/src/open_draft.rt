//! A draft of a torrent, to which files are added as they come (BEP 52, "metainfo files").

ghost use Rattle.std.specs.Prelude.{◌≡◌, ◌≢◌, ◌↔◌, IfErr, IfOk, IsTrue, map};
ghost use Rattle.benc.specs.Text.{spelling};
ghost use Rattle.drafts.specs.Finishing.{finish_rows};
ghost use Rattle.drafts.specs.Outline.{empty_outline};
ghost use Rattle.drafts.specs.Written.{torrent_of, value_of};
ghost use Rattle.drafting.specs.Coming.{IsNewFile};
ghost use Rattle.drafting.specs.Drafted.{AddsFile, AddsParts, IsFileForDraft, new_rows};
ghost use Rattle.filetree.specs.Tests.{First, NoneHolds, PassesUnlessNoMemory};
ghost use Rattle.opening.specs.Describes.{Describes};

use crate::coming_file::ComingFile;
use crate::components::components;
use crate::text_sink::TextSink;
use drafts::Draft;
use filetree::{Key, Refusal};
use gathering::TorrentKind;
use hashtree::recall_hashes;
use std::alloc::Global;
use std::marker::Model;
use std::str;

/// A draft of a torrent, to which files are added as they come, in any order. Contracts see it as
/// what it holds.
#[derive(Drop)]
pub struct OpenDraft {
    kind: TorrentKind,
    draft: Draft,
}

impl Model for OpenDraft {
    ghost use Rattle.drafts.specs.Outline.{Outline};
    ghost use Rattle.std.specs.Prelude.{◌≡◌};

    ghost Value = { Outline };

    ghost view = { λ d. d.draft };

    ghost invariant = { λ d. (d.draft.piece_length ≡ d.kind.piece_length)
        × (d.draft.hybrid ≡ d.kind.hybrid) };
}

impl OpenDraft {
    /// A draft of no files, with this display name, and piece length in bytes.
    ///
    /// # Errors
    ///
    /// The first of these: `WrongType` with `Name` if the name is not UTF-8; `PieceLength` unless
    /// the piece length is a power of two from 16,384 to 2^30; `NoMemory` only if memory was
    /// refused.
    pub fn new(
        alloc: Global,
        name: &[u8],
        piece_length: u64,
        hybrid: bool,
    ) -> Result<OpenDraft, Refusal>
        ensures empty { PassesUnlessNoMemory (new_rows name.now piece_length)
            (λ d. d ≡ empty_outline name.now piece_length hybrid) result }
        ensures memory { IfErr result
            (λ r. r ≡ Refusal.NoMemory → NoneHolds (new_rows name.now piece_length)) }
    {
        let Ok(name) = str::from_utf8(name) else {
            return Err(Refusal::WrongType(Key::Name));
        };
        let Some(kind) = TorrentKind::new(piece_length, hybrid) else {
            return Err(Refusal::PieceLength);
        };
        let draft = Draft::new(alloc, name, piece_length, hybrid)?;
        Ok(OpenDraft { kind, draft })
    }

    /// A file for this draft, of which nothing came yet. It takes no memory.
    pub fn new_file(&self, alloc: Global) -> ComingFile
        ensures { IsNewFile self.now.piece_length self.now.hybrid result }
    {
        let kind = TorrentKind {
            piece_length: self.kind.piece_length,
            hybrid: self.kind.hybrid,
        };
        ComingFile::new(alloc, kind)
    }

    /// Whether a file is for drafts of this one's piece length and kind.
    pub fn fits(&self, file: &ComingFile) -> bool
        ensures { IsTrue result ↔ IsFileForDraft self.now file.now }
    {
        let kind = file.kind();
        kind.piece_length == self.kind.piece_length && kind.hybrid == self.kind.hybrid
    }

    /// Adds a file under this path, whose components a `/` stands between. The file then begins
    /// anew. Condition: it is for such a draft, as [`OpenDraft::fits`] says.
    ///
    /// # Errors
    ///
    /// The draft is unchanged then. `Path` if the path is not UTF-8, and the file is unchanged too.
    /// Else the first of the refusals of [`Draft::add`], and the file is whole: it can be added
    /// under another path, and takes no more bytes. `NoMemory` only if memory was refused, in this
    /// call or while the file came; if it was refused to the file, that is lost, and each later
    /// call with a path in UTF-8 answers this too.
    pub fn add(&mut self, alloc: Global, file: &mut ComingFile, path: &[u8]) -> Result<(), Refusal>
        requires { IsFileForDraft self.old file.old }
        ensures { AddsFile self.old file.old path.now self.new file.new result }
    {
        let Ok(path) = str::from_utf8(path) else {
            return Err(Refusal::Path);
        };
        let parts = components(alloc, path)?;
        self.add_parts(alloc, file, &parts)
    }

    // Adds a file under the path of these components.
    fn add_parts(
        &mut self,
        alloc: Global,
        file: &mut ComingFile,
        parts: &[&str],
    ) -> Result<(), Refusal>
        requires { IsFileForDraft self.old file.old }
        ensures { AddsParts self.old file.old (map (λ s. s.now) parts.now) self.new file.new
            result }
    {
        let found = file.take_found(alloc)?;
        self.kind.recall_legal();
        recall_hashes(&found.layer);
        match self
            .draft
            .add(parts, found.length, found.root, &found.layer, &found.v1)
        {
            Ok(()) => {
                *file = self.new_file(alloc);
                Ok(())
            }
            Err(refusal) => {
                file.put_back(found);
                Err(refusal)
            }
        }
    }

    /// The text of the torrent file.
    ///
    /// # Errors
    ///
    /// `NoFiles` if no file was added; `TooLarge` if the text has more than 67,108,864 bytes; in
    /// that order. `NoMemory` only if memory for the text was refused.
    pub fn text(&self, alloc: Global) -> Result<Vec<u8>, Refusal>
        ensures written { PassesUnlessNoMemory (finish_rows self.now)
            (λ text. text.items ≡ spelling (value_of self.now)) result }
        ensures opens { IfOk result (λ text. Describes text.items (torrent_of self.now)) }
        ensures memory { IfErr result
            (λ r. r ≡ Refusal.NoMemory → NoneHolds (finish_rows self.now)) }
    {
        let mut sink = TextSink::new(alloc);
        match self.draft.finish(&mut sink) {
            Ok(()) => Ok(sink.into_text()),
            Err(Refusal::Write) => Err(Refusal::NoMemory),
            Err(refusal) => Err(refusal),
        }
    }
}
