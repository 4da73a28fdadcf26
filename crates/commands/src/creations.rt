//! What the making of a torrent in parts answers.
ghost use Rattle.std.specs.Prelude.{◌≡◌, ◌-◌, ◌<◌, IfOk, length, map};
ghost use Rattle.assembling.specs.Outcome.{IsAssembled};
ghost use Rattle.commands.specs.Creations.{AnswersPart, AssemblesDraft, CanBeAssembled, ListsFiles, NamesFile, WritesPart};
ghost use Rattle.gathering.specs.PartVisits.{HashesPart};
ghost use Rattle.part_texts.specs.Listings.{inventory, listed};

use crate::outcomes::{fault_of_listing, refuse, status};
use actions::{Create, NumberedPart};
use assembling::AssembleFault;
use benc::{Sink, write_all};
use drafts::Draft;
use filetree::Refusal;
use folders::{SeekShelf, Shelf};
use gathering::PartFault;
use lines::finish_after;
use part_texts::{ListedFile, Listing};
use pieces::PieceLength;
use printing::Fault;
use std::alloc::Global;

/// Lists the files of a shelf, in the order of their paths. If there is no torrent of the piece
/// length, it prints the refusal, answers the exit status, 1, and does not look at the shelf.
pub fn list_files<'a, S: Shelf, W: Sink>(
    alloc: Global,
    asked: &Create<'a>,
    shelf: &mut S,
    out: &mut W,
) -> Result<Result<Vec<Vec<String>>, u8>, Fault<'a>>
    ensures lists { ListsFiles S.Shelf shelf.old shelf.new asked.now.piece_length
        (Fault.Read asked.now.dir) (W.seen out.old) (W.seen out.new) result }
    ensures stays { S.contents shelf.new ≡ S.contents shelf.old }
{
    if PieceLength::new(asked.piece_length).is_none() {
        return Ok(Err(refuse(&Refusal::PieceLength, &Vec::new(alloc), out)?));
    }
    match shelf.list() {
        Ok(mut paths) => {
            paths.sort_unstable();
            Ok(Ok(paths))
        }
        Err(fault) => Err(fault_of_listing(fault, asked.dir)),
    }
}

/// Hashes one part of the listed files, and gives its text. If there is no torrent of the piece
/// length, it prints the refusal and answers the exit status, 1. A fault names the first file that
/// could not be read, or is not as long as it is listed.
pub fn hash_part<'a, S: SeekShelf, W: Sink>(
    alloc: Global,
    listing: &Listing,
    shelf: &mut S,
    part: NumberedPart,
    out: &mut W,
) -> Result<Result<Vec<u8>, u8>, Fault<'a>>
    ensures text { AnswersPart (HashesPart S.Shelf S.opens_at S.File.seen (inventory listing.now)
        (part.number - 1) part.count shelf.old shelf.new) (inventory listing.now) (W.seen out.old)
        (W.seen out.new) result }
    ensures listed { IfOk result (λ done. IfOk done (λ _.
        CanBeAssembled (inventory listing.now))) }
    ensures stays { S.Shelf.contents shelf.new ≡ S.Shelf.contents shelf.old }
{
    match gathering::hash_part(alloc, shelf, listing, part.number - 1, part.count) {
        Ok(text) => Ok(Ok(text)),
        Err(PartFault::PieceLength) => {
            Ok(Err(refuse(&Refusal::PieceLength, &Vec::new(alloc), out)?))
        }
        Err(PartFault::Device(place)) => Err(unread(&listing.files, place)),
        Err(PartFault::Changed(place)) => Err(unread(&listing.files, place)),
        Err(PartFault::NoMemory) => Err(Fault::NoMemory),
    }
}

// The fault that this listed file cannot be read.
fn unread<'a>(files: &[ListedFile], place: usize) -> Fault<'a>
    requires { place < length files.now }
    ensures { NamesFile (map listed files.now) place result }
{
    let file = &files[place];
    match file.path.clone() {
        Ok(path) => Fault::ReadBelow(path),
        Err(_) => Fault::NoMemory,
    }
}

/// Writes the text of a part to the sink with this path and flushes it, status 0. A fault names the
/// sink.
pub fn write_part<'a, W: Sink>(text: &[u8], path: &'a str, part: &mut W) -> Result<u8, Fault<'a>>
    ensures { WritesPart text.now path.now (W.seen part.old) (W.seen part.new) result }
{
    let written = write_all(part, text);
    match finish_after(part, written) {
        Ok(()) => Ok(status(true)),
        Err(_) => Err(Fault::Write(path)),
    }
}

/// Assembles a draft of what all parts hashed. If the files cannot be a torrent, it prints the
/// refusal and answers the exit status, 1. If the texts are not those of all parts of one folder,
/// it answers why, and prints nothing.
pub fn assemble<'a, W: Sink>(
    alloc: Global,
    texts: &[&[u8]],
    out: &mut W,
) -> Result<Result<Result<Draft, u8>, AssembleFault>, Fault<'a>>
    ensures { AssemblesDraft (IsAssembled (map (λ x. x.now) texts.now)) (W.seen out.old)
        (W.seen out.new) result }
{
    match assembling::assemble(alloc, texts) {
        Ok(draft) => Ok(Ok(Ok(draft))),
        Err(AssembleFault::Refused(refusal, path)) => Ok(Ok(Err(refuse(&refusal, &path, out)?))),
        Err(AssembleFault::NoMemory) => Err(Fault::NoMemory),
        Err(fault) => Ok(Err(fault)),
    }
}
