//! Why a part was not hashed.
use std::alloc::AllocError;

/// Why a part was not hashed. A file is named by its place in the listing, from 0.
#[derive(Clone, Copy, Debug, PartialEq, Eq, Drop)]
pub enum PartFault {
    /// The piece length is no power of two from 16,384 to 2^30. Nothing was opened.
    PieceLength,
    /// This file could not be opened, or not be read.
    Device(usize),
    /// This file is not there any more, or is not as long as it is listed.
    Changed(usize),
    /// Memory was refused.
    NoMemory,
}

impl From<AllocError> for PartFault {
    ghost use Rattle.std.specs.Prelude.{◌≡◌};
    ghost use Rattle.gathering.specs.declared.part_fault.PartFault.TheVariants.{NoMemory};

    ghost from_gives = { λ _ e. e ≡ NoMemory };

    fn from(_error: AllocError) -> PartFault {
        PartFault::NoMemory
    }
}
