//! The assembly of a torrent of what all parts hashed.
#![tactic(auto)]

mod all_rows;
mod assembling;
mod fault;
pub mod laws;
mod numbers;
mod one_file;
mod rows;
mod sizes;
mod whole;

pub use assembling::assemble;
pub use fault::AssembleFault;
