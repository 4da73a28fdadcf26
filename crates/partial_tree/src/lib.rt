//! One hash tree of a torrent (BEP 52) of which some nodes are known, and what hashes and blocks
//! add to it.
#![tactic(auto)]

mod answer;
mod answering;
mod block_digests;
mod bytes;
mod growing;
mod marking;
mod message;
mod nodes;
mod piece;
mod refusal;
mod tree;

pub use answer::Answer;
pub use block_digests::{BlockDigests, block_of};
pub use bytes::{recall_hash, recall_hashes};
pub use growing::{GrowingTree, GrownTree};
pub use hashtree::NoMemory;
pub use refusal::{BlockRefusal, HashRefusal, PieceRefusal};
pub use tree::Tree;
