//! Passes over the files of a shelf: each path is looked at once, in order; small files are read
//! one after the other and hashed side by side.
#![tactic(auto)]

mod cuts_wanted;
mod held;
mod job;
mod nothing;
mod passing;
mod rows;
mod stopped;

pub use cuts_wanted::CutsWanted;
pub use held::{HeldFiles, Read};
pub use job::Job;
pub use nothing::Nothing;
pub use passing::pass;
pub use stopped::Stopped;
