//! Why a record was not converted.
use benc::{DeviceFault, WriteFault};
use thiserror::Error;

/// Why a record was not converted.
#[derive(Clone, Copy, Debug, PartialEq, Eq, Error)]
pub enum ConvertFault {
    /// The record ends inside a frame.
    #[error("the record ends inside a frame")]
    Truncated,
    /// The source failed.
    #[error("the source failed")]
    Read,
    /// The record is of form 2.
    #[error("the record is of form 2 already")]
    AlreadyForm2,
    /// The sink failed.
    #[error("cannot write")]
    Write,
}

impl From<DeviceFault> for ConvertFault {
    ghost use Rattle.std.specs.Prelude.{◌≡◌};
    ghost use Rattle.conversions.specs.declared.fault.ConvertFault.TheVariants.{Read};

    ghost from_gives = { λ _ fault. fault ≡ Read };

    fn from(_: DeviceFault) -> ConvertFault {
        ConvertFault::Read
    }
}

impl From<WriteFault> for ConvertFault {
    ghost use Rattle.std.specs.Prelude.{◌≡◌};
    ghost use Rattle.conversions.specs.declared.fault.ConvertFault.TheVariants.{Write};

    ghost from_gives = { λ _ fault. fault ≡ Write };

    fn from(_: WriteFault) -> ConvertFault {
        ConvertFault::Write
    }
}
