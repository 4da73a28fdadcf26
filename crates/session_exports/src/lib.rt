//! What a session knows beyond the torrent's own layers, as ranges of leaves that any session of
//! the torrent takes: those of hashes messages (BEP 52), one at a time.
#![tactic(auto)]

pub mod laws;
mod next;
mod ranges;
mod search;

pub use next::{Export, Point, next_export};
