//! The command line of `btcheck`: what its arguments ask for.
#![tactic(auto)]

mod arguments;
mod definition;
mod explaining;
mod finding;
mod help;
mod sizes;
mod unasked;

pub use arguments::action;
pub use explaining::{ExplainFault, explain};
