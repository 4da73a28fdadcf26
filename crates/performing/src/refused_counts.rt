//! What a replay does not take, counted.
use crate::watched::Watch;
use lines::Line;

/// How many messages or blocks of messages were refused, and how many blocks that were held are
/// false, gave way, or are still held at the end.
#[derive(Clone, Copy, Drop)]
pub(crate) struct RefusedCounts {
    pub(crate) refused: u64,
    pub(crate) false_blocks: u64,
    pub(crate) dropped: u64,
    pub(crate) held: u64,
}

impl RefusedCounts {
    /// Nothing has been counted.
    pub(crate) fn none() -> RefusedCounts {
        RefusedCounts {
            refused: 0,
            false_blocks: 0,
            dropped: 0,
            held: 0,
        }
    }
}

impl Watch for RefusedCounts {
    fn see(&mut self, line: &Line<'_>) {
        match *line {
            Line::Refused { .. } | Line::RefusedAt { .. } => {
                self.refused = self.refused.saturating_add(1);
            }
            Line::False { first, last, .. } => {
                self.false_blocks = self.false_blocks.saturating_add(blocks_of_run(first, last));
            }
            Line::Dropped { first, last, .. } => {
                self.dropped = self.dropped.saturating_add(blocks_of_run(first, last));
            }
            Line::StillHeld(count) => self.held = self.held.saturating_add(count),
            _ => (),
        }
    }
}

// How many blocks a run has.
fn blocks_of_run(first: u64, last: u64) -> u64 {
    last.saturating_sub(first).saturating_add(1)
}
