//! Why the reports of parts cannot be joined.
use std::alloc::AllocError;

/// Why the reports of parts cannot be joined. A report is named by its place among them, from 0.
#[derive(Clone, Copy, Debug, PartialEq, Eq, Drop)]
pub enum JoinFault {
    /// This one is not the whole report of a part.
    NoReport(usize),
    /// This one is of another torrent.
    OtherTorrent(usize),
    /// This one is of another number of parts than the first.
    OtherCount(usize),
    /// The part with this number is there twice.
    Twice(u64),
    /// The part with this number is not there, of this many.
    Missing(u64, u64),
    /// Memory was refused.
    NoMemory,
}

impl From<AllocError> for JoinFault {
    ghost use Rattle.std.specs.Prelude.{◌≡◌};
    ghost use Rattle.part_reports.specs.declared.join_fault.JoinFault.TheVariants.{NoMemory};

    ghost from_gives = { λ _ e. e ≡ NoMemory };

    fn from(_error: AllocError) -> JoinFault {
        JoinFault::NoMemory
    }
}
