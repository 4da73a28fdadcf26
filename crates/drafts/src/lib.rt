//! Drafts of torrents (BEP 52, "metainfo files"; BEP 3; BEP 47), to which files are added.
#![tactic(auto)]

mod add;
mod component;
mod draft;
mod finish;
mod hybrid_text;
pub mod laws;
mod path_order;
mod pen;
mod tree_text;

pub use draft::Draft;
