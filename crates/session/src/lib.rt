//! What a client knows of the hash trees of a torrent (BEP 52), and what it makes of the messages
//! that peers send.
#![tactic(auto)]

mod asking;
mod hashes;
mod marking;
mod noting;
mod open_asks;
mod piece_leaves;
mod planting;
mod running;
mod session;
mod torrent_holder;
mod verdict;
mod whole_pieces;

pub use hashtree::NoMemory;
pub use node_maps::{Flat, NodeMap, Paged};
pub use partial_tree::{Answer, BlockRefusal, GrowingTree, GrownTree, HashRefusal, PieceRefusal};
pub use running::recall_message_hashes;
pub use session::{OwnedSession, Session, SessionOf};
pub use torrent_holder::{HoldsTorrent, OwnTorrent};
pub use verdict::{Blocks, Verdict};
