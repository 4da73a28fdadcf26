//! The laws of runs of messages. Some of their statements are with the
//! definitions of `session`.
#![tactic(auto)]

mod laws;

pub use laws::{
    all_blocks_are_served, calls_keep_trees_closed, conversion_replays_as_form_1, gaps_are_wants,
    marks_come_from_blocks, noted_asks_close_gaps, rounds_close_gaps, run_keeps_promises,
    trusting_sha256, trusting_the_inputs_in_use,
};
