//! What machines ask that each hash a part of a torrent, and whoever makes it of what they hashed.
ghost use Rattle.std.specs.Prelude.{◌-◌, IfOk, map};
ghost use Rattle.uses.specs.PartsHashed.{IsTextOfPart, MakesTheTorrent};

use actions::NumberedPart;
use assembling::laws::all_texts_assemble;
use assembling::{AssembleFault, assemble};
use benc::Sink;
use checker::{Fault, SeekShelf};
use commands::creations::hash_part;
use drafts::Draft;
use part_texts::Listing;
use round_trips::alike_write_alike;
use std::alloc::Global;

/// Hashes one part of the listed files. A text is that of the part, true of the shelf as far as
/// that is known, and what was listed can be listed: what `torrent_of_parts` asks of each text.
pub fn text_of_part<'a, S: SeekShelf, W: Sink>(
    alloc: Global,
    listing: &Listing,
    shelf: &mut S,
    part: NumberedPart,
    out: &mut W,
) -> Result<Result<Vec<u8>, u8>, Fault<'a>>
    ensures { IfOk result (λ done. IfOk done (λ text. IsTextOfPart listing.now (part.number - 1)
        part.count (S.Shelf.contents shelf.old).under text.items)) }
{
    hash_part(alloc, listing, shelf, part, out)
}

/// The torrent of the texts of all parts. If each is true of the same contents, a draft is written
/// as any draft that is gathered of these: as the torrent that `create` writes.
pub fn torrent_of_parts(alloc: Global, texts: &[&[u8]]) -> Result<Draft, AssembleFault>
    ensures { MakesTheTorrent (map (λ x. x.now) texts.now) result }
{
    all_texts_assemble();
    alike_write_alike();
    assemble(alloc, texts)
}
