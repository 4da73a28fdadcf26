//! Why a shelf could not be listed.
ghost use Rattle.folders.specs.declared.shelf_fault.ShelfFault.TheVariants as fault;
ghost use Rattle.std.specs.Prelude.{◌≡◌};

use std::alloc::AllocError;
use thiserror::Error;

/// Why a shelf could not be listed.
#[derive(Debug, PartialEq, Drop, Error)]
pub enum ShelfFault {
    /// The shelf failed.
    #[error("the shelf cannot be listed")]
    Device,
    /// A name on the shelf is not UTF-8.
    #[error("a name is not UTF-8")]
    Name,
    /// What stands under this path is neither a regular file nor a folder.
    #[error("neither a file nor a folder")]
    Special(Vec<String>),
    /// Out of memory.
    #[error("out of memory")]
    NoMemory,
}

impl From<AllocError> for ShelfFault {
    ghost from_gives = { λ _ e. e ≡ fault.NoMemory };

    fn from(_error: AllocError) -> ShelfFault {
        ShelfFault::NoMemory
    }
}
