//! What is left out of a shelf: the files that a glob matches, or a folder above them.
#![tactic(auto)]

mod shelf;

pub use shelf::Excluding;
