//! The known nodes of a hash tree (BEP 52), behind one interface for each way to keep them.
#![tactic(auto)]

mod flat;
mod node_map;
mod page;
mod page_index;
mod paged;
mod paged_row;
mod search;

pub use flat::Flat;
pub use node_map::NodeMap;
pub use paged::Paged;
