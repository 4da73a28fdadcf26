//! Why a report did not go out whole.
ghost use Rattle.std.specs.Prelude.{◌≡◌};
ghost use Rattle.lines.specs.declared.out_fault.OutFault.TheVariants as fault;

use benc::{DeviceFault, WriteFault};
use std::alloc::AllocError;
use thiserror::Error;

/// Why a report did not go out whole.
#[derive(Clone, Copy, Debug, PartialEq, Eq, Drop, Error)]
pub enum OutFault {
    /// Memory was refused.
    #[error("out of memory")]
    NoMemory,
    /// The sink failed, and a prefix of what was to go out did, or its flush failed.
    #[error("cannot write")]
    Write,
}

impl From<AllocError> for OutFault {
    ghost from_gives = { λ _ e. e ≡ fault.NoMemory };

    fn from(_error: AllocError) -> OutFault {
        OutFault::NoMemory
    }
}

impl From<DeviceFault> for OutFault {
    ghost from_gives = { λ _ e. e ≡ fault.Write };

    fn from(_error: DeviceFault) -> OutFault {
        OutFault::Write
    }
}

impl From<WriteFault> for OutFault {
    ghost from_gives = { λ _ e. e ≡ fault.Write };

    fn from(_error: WriteFault) -> OutFault {
        OutFault::Write
    }
}
