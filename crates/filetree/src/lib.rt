//! The file tree of a torrent (BEP 52, "file tree"): its paths and its files, and why a torrent is
//! refused.
#![tactic(auto)]

mod component;
mod file_tests;
mod files;
mod folder;
mod folder_name;
pub mod laws;
mod path;
mod path_parts;
mod reading;
mod refusal;
mod shape;
mod walk;

pub use component::is_bad_component;
pub use files::{ListedFile, has_attribute, length};
pub use path::Path;
pub use path_parts::PathParts;
pub use reading::read_tree;
pub use refusal::{Key, Refusal};
