//! The conversion of a record of form 1 to form 2.
#![tactic(auto)]

mod converting;
mod fault;
mod head;
mod outgoing;
mod parts;

pub use converting::convert;
pub use fault::ConvertFault;
