//! Messages that carry the last block of a file with zeros behind its end.
#![tactic(auto)]

mod padding;

pub use padding::without_padding;
