//! The verdicts of a check, counted.
use crate::watched::Watch;
use lines::{Checked, Line};

/// How many lines there were of each verdict on a file.
#[derive(Clone, Copy, Drop)]
pub(crate) struct VerdictCounts {
    pub(crate) good: u64,
    pub(crate) missing: u64,
    pub(crate) unreadable: u64,
    pub(crate) wrong_length: u64,
    pub(crate) bad: u64,
}

impl VerdictCounts {
    /// Nothing has been counted.
    pub(crate) fn none() -> VerdictCounts {
        VerdictCounts {
            good: 0,
            missing: 0,
            unreadable: 0,
            wrong_length: 0,
            bad: 0,
        }
    }

    /// How many files have a verdict.
    pub(crate) fn all(&self) -> u64 {
        self.good.saturating_add(self.not_good())
    }

    /// How many files are not good.
    pub(crate) fn not_good(&self) -> u64 {
        let of_some = self.wrong_length.saturating_add(self.bad);
        self.unread().saturating_add(of_some)
    }

    /// Whether none of this many files was found, and there are some.
    pub(crate) fn found_none_of(&self, files: u64) -> bool {
        files > 0 && self.unread() >= files
    }

    // How many files were not found, or not to be read.
    fn unread(&self) -> u64 {
        self.missing.saturating_add(self.unreadable)
    }
}

impl Watch for VerdictCounts {
    fn see(&mut self, line: &Line<'_>) {
        let Line::Checked(found) = line else {
            return;
        };
        let counted = match found {
            Checked::Good(_) => &mut self.good,
            Checked::Missing(_) => &mut self.missing,
            Checked::Unreadable(_) => &mut self.unreadable,
            Checked::WrongLength(_) => &mut self.wrong_length,
            Checked::Bad { .. } => &mut self.bad,
            _ => return,
        };
        *counted = counted.saturating_add(1);
    }
}
