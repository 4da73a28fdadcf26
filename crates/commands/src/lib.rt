//! What each command of `btcheck` answers over any devices.
#![tactic(auto)]

pub mod answer_sink;
pub mod checks;
pub mod creations;
mod joins;
pub mod outcomes;
pub mod part_checks;
pub mod piece_replays;
