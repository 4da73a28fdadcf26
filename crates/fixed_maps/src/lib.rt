//! Ordered maps from pairs of numbers to pairs of numbers, whose memory is asked for at the start.
#![tactic(auto)]

mod entry;
mod fixed_map;
mod spot;
mod tier;
mod tiers;

pub use entry::{Key, Value};
pub use fixed_map::FixedMap;
