//! Vectors with a word of each of several messages, for hashing them side by side.
//!
//! Lane `j` of each vector belongs to message `j`. Only the reading of blocks moves a word from one
//! lane to another; no operation on the vectors does.
//!
//! ```text
//!               lane 0      lane 1            lane 7
//! word a      a of msg 0  a of msg 1   ..   a of msg 7
//! word b      b of msg 0  b of msg 1   ..   b of msg 7
//! ..
//! ```
//!
//! So eight messages take about as many instructions as one. How many there are is one constant,
//! [`LANES`]. Nothing takes memory.
#![tactic(auto)]

mod functions;
mod output;
mod reading;
mod rows;
mod words;

pub use functions::{choice, majority, parity};
pub use output::{digest_of, digests_of};
pub use reading::{Block, block_at, block_of_places, same_block};
pub use words::{
    LANES, Words, common, differing, inverse, lower, rotated_left, rotated_right, same, sum,
};
