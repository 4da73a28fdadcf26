//! What holds in each run over what is held.
#![tactic(auto)]

mod laws;

pub use laws::{proved_was_the_block, true_piece_is_proved};
