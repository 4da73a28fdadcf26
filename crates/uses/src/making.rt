//! Torrents are made: of a folder, or of what all its parts say.
ghost use Rattle.std.specs.Prelude.{IfErr, IfOk, map};
ghost use Rattle.drafts.specs.Outline.{empty_outline};
ghost use Rattle.uses.specs.Making.{IsDraftOfAll, IsFirstFault, IsMadeOfParts, IsTorrentOf};

use assembling::laws::all_texts_assemble;
use assembling::{AssembleFault, assemble};
use benc::Sink;
use checker::{GatherFault, Shelf, gather};
use metainfo::{Draft, Refusal};
use std::alloc::Global;

/// Drafts a torrent of a folder: after `Ok` the draft of all listed files; else why not: the piece
/// length, the listing, or `NoMemory`; or, by its path, a file that is too long or that the draft
/// of those before it refuses; or one that was gone or could not be opened or read, after at most
/// 64 read and not yet added.
pub fn draft_folder<S: Shelf>(
    alloc: Global,
    shelf: &mut S,
    name: &str,
    piece_length: u64,
    hybrid: bool,
) -> Result<Draft, GatherFault>
    ensures all { IfOk result (IsDraftOfAll (S.contents shelf.old)
        (empty_outline name.now piece_length hybrid)) }
    ensures first { IfErr result (IsFirstFault S.Shelf S.File.seen
        (empty_outline name.now piece_length hybrid) shelf.old shelf.new) }
{
    gather(alloc, shelf, name, piece_length, hybrid)
}

/// Writes a draft as a torrent file: after `Ok` exactly the draft's text went out, flushed once;
/// opening it gives the draft's torrent, or `NoMemory`.
pub fn write_torrent<W: Sink>(draft: &Draft, out: &mut W) -> Result<(), Refusal>
    ensures { IfOk result (λ _. IsTorrentOf draft.now (W.seen out.old) (W.seen out.new)) }
{
    draft.finish(out)
}

/// Drafts a torrent of what the parts say: if the texts are those of all parts, each once, and true
/// of the same known contents (it cannot check that): a draft to which the listed files were added
/// as `gather` adds them; or the refusal of the piece length, of a file listed too long, or of one
/// by such a draft; or `NoMemory`.
pub fn draft_of_parts(alloc: Global, texts: &[&[u8]]) -> Result<Draft, AssembleFault>
    ensures { IsMadeOfParts (map (λ x. x.now) texts.now) result }
{
    all_texts_assemble();
    assemble(alloc, texts)
}
