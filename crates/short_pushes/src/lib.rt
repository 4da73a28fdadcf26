//! The root of a file and the check of its pieces, from bytes that come in parts of any size. Bytes
//! of short parts wait until they are as many as are hashed side by side.
#![tactic(auto)]

mod file_root;
mod groups;
mod row_check;
mod waiting;

pub use file_root::FileRoot;
pub use row_check::RowCheck;
