//! Torrents of version 2 and hybrids (BEP 52, BEP 3, BEP 47): their files, their trees, the
//! version 1 stream, and how they are put together.
#![tactic(auto)]

pub mod laws;

pub use drafts::Draft;
pub use filetree::{Key, Path, PathParts, Refusal};
pub use opening::{File, MAX_TORRENT, Torrent, TreeInfo};
pub use pieces::{PieceLength, V1, V1Cuts, V1Feed, V1File};
