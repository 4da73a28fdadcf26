//! SHA-1 (FIPS 180-4) of several messages side by side, as they come part by part: of one length
//! (`Batch`), or such that begin one after the other (`Relay`).
//!
//! Each of the standard's words becomes a vector with a word of each message, as the crate `lanes`
//! has it. Each digest is proved to be the one that the crate `sha1` defines. Nothing takes memory.
#![tactic(auto)]

mod batch;
mod compression;
mod ending;
mod filled;
mod padding;
mod relay;
mod rounds;
mod values;

pub use batch::Batch;
pub use relay::Relay;
