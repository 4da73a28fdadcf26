//! Why no frame could be read.
use benc::DeviceFault;
use std::alloc::AllocError as NoMemory;
use thiserror::Error;

/// Why a frame could not be read.
#[derive(Clone, Copy, Debug, PartialEq, Eq, Error)]
pub enum FrameFault {
    /// The input ended inside a length or a body.
    #[error("the input ends inside a frame")]
    Truncated,
    /// The source answered a fault.
    #[error("the source failed")]
    Read,
    /// Memory for the body of a message of a known kind was refused.
    #[error("out of memory")]
    NoMemory,
    /// Before a frame of a record of form 2 stood a byte that is no direction. Only a
    /// `RecordReader` answers it.
    #[error("a byte before a frame is no direction")]
    BadDirection,
}

impl From<DeviceFault> for FrameFault {
    ghost use Rattle.std.specs.Prelude.{◌≡◌};
    ghost use Rattle.wire.specs.declared.fault.FrameFault.TheVariants.{Read};

    ghost from_gives = { λ _ fault. fault ≡ Read };

    fn from(_: DeviceFault) -> FrameFault {
        FrameFault::Read
    }
}

impl From<NoMemory> for FrameFault {
    ghost use Rattle.std.specs.Prelude.{◌≡◌};
    ghost use Rattle.wire.specs.declared.fault.FrameFault.TheVariants.{NoMemory};

    ghost from_gives = { λ _ fault. fault ≡ NoMemory };

    fn from(_: NoMemory) -> FrameFault {
        FrameFault::NoMemory
    }
}
