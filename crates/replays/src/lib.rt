//! Records of messages: their replay over a session, and its report.
#![tactic(auto)]

mod answering;
mod by_pieces;
mod ending;
mod entries;
mod handing;
mod lines_of_frame;
mod naming;
mod replaying;
mod replaying_pieces;
mod report;
mod said;
mod settlings;
mod telling;

pub use replaying::{replay, replay_onto};
pub use replaying_pieces::replay_pieces;
pub use report::Outcome;
