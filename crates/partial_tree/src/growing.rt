//! Trees that grow from their leaves, and how a tree takes one over.

mod adding;
pub(crate) mod adopting;
mod trees;

pub use trees::{GrowingTree, GrownTree};
