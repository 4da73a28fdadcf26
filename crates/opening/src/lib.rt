//! Opening torrents of version 2 and hybrids (BEP 52, BEP 3, BEP 47).
#![tactic(auto)]

mod digests;
mod info;
pub mod laws;
mod layer_tests;
mod layers;
mod open;
mod place;
mod roots;
mod torrent;
mod version1;

pub use open::MAX_TORRENT;
pub use roots::Root;
pub use torrent::{File, Torrent, TreeInfo};
