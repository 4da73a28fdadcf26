//! SHA-256 (FIPS 180-4) of several messages side by side: of one length, or of any lengths.
//!
//! Each of the standard's words becomes a vector with a word of each message, as the crate `lanes`
//! has it. Each digest is proved to be the one that the crate `sha2` defines. Nothing takes memory.
#![tactic(auto)]

mod compression;
mod constants;
mod functions;
mod messages;
mod padded;
mod padding;
mod places;
mod rounds;

pub use messages::{digests, parents};
pub use places::digests_at;
