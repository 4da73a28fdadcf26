//! A line on a terminal that says how far a command has come.
//!
//! It stands on standard error, and only if that is a terminal. The devices of a command show it: a
//! [`Counted`] source notes what was read, and a [`Cleared`] sink takes the line away before a
//! command prints. If no line is shown, they do nothing else.
mod amount;
mod devices;
mod line;
mod screen;
mod terminal;

pub use amount::Amount;
pub use devices::{Cleared, Counted};
pub use screen::Progress;
