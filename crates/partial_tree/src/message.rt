//! The way of a hashes message: its tests, the comparison of all that it claims with what is known,
//! and what is then written. A whole layer goes the same way.

pub(crate) mod checks;
mod comparing;
pub(crate) mod end_pads;
pub(crate) mod evidence;
mod filling;
mod folding;
mod found;
mod leaves;
mod pads;
pub(crate) mod row;
mod row_storing;
mod storing;
mod taking;
mod visitor;
mod writing;
