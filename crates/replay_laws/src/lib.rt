//! What a report of `replay` says of the record, where blocks are held that cannot be proved yet.
#![tactic(auto)]

mod laws;

pub use laws::proved_lines_came;
