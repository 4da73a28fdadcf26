//! Small files side by side in one buffer: the leaves, roots and layers of a window of their
//! blocks, and their version 1 pieces.
#![tactic(auto)]

mod blocks;
mod cuts;

pub use blocks::{WINDOW, Window};
pub use cuts::CutWindow;
