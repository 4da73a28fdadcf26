//! Why no torrent is assembled.
ghost use Rattle.std.specs.Prelude.{◌≡◌};
ghost use Rattle.assembling.specs.Behind.{unread_as};

use filetree::Refusal;
use part_texts::ListingFault;
use std::alloc::AllocError;

/// Why no torrent is assembled. A text is named by its place among them, from 0, and a part by its
/// number, from 1.
#[derive(Drop)]
pub enum AssembleFault {
    /// This text is not the whole text of a part.
    NoPart(usize),
    /// The text of the part with this number is of another folder, or of another torrent of it,
    /// than the first text.
    OtherFolder(u64),
    /// This text is of another number of parts than the first.
    OtherCount(usize),
    /// The part with this number is there twice.
    Twice(u64),
    /// The part with this number is not there, of this many.
    Missing(u64, u64),
    /// The files cannot be a torrent: the draft refused the file under this path; or there is no
    /// draft of the piece length, and then the path is empty.
    Refused(Refusal, Vec<String>),
    /// Memory was refused.
    NoMemory,
}

impl From<AllocError> for AssembleFault {
    ghost use Rattle.std.specs.Prelude.{◌≡◌};
    ghost use Rattle.assembling.specs.declared.fault.AssembleFault.TheVariants.{NoMemory};

    ghost from_gives = { λ _ e. e ≡ NoMemory };

    fn from(_error: AllocError) -> AssembleFault {
        AssembleFault::NoMemory
    }
}

/// The fault, for the text at this place.
pub(crate) fn unread(fault: ListingFault, place: usize) -> AssembleFault
    ensures { result ≡ unread_as fault place }
{
    match fault {
        ListingFault::None => AssembleFault::NoPart(place),
        ListingFault::NoMemory => AssembleFault::NoMemory,
    }
}
