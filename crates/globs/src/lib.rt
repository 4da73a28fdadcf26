//! Globs: patterns of paths, as shells and `.gitignore` write them, and which paths they leave out.
//!
//! A path is left out if a glob matches it or a folder above it; `/` joins its components.
//!
//! | In a glob | It matches |
//! |---|---|
//! | `*` | any characters but `/`, also none |
//! | `?` | one character but `/` |
//! | `[abc]`, `[a-z]` | one of these characters, never `/` |
//! | `[!abc]`, `[^abc]` | one character but these and `/` |
//! | `**/` at the start of a component | any number of folders, also none |
//! | `**` elsewhere | any characters, `/` too |
//! | `\` and a character | that character |
//! | any other character | itself |
//!
//! A glob without `/`, or with one at its end alone, matches a name at any depth; any other matches
//! from the top. A `/` at its start only says that, and one at its end that what matches is a
//! folder. (That is not so behind `**` at the start of a component, which takes it: such a glob
//! matches nothing.)
//!
//! A match takes as many steps as the glob has characters times those of the path, at most.
#![tactic(auto)]

mod kinds;
mod matching;
mod reading;
mod set;

pub use kinds::Glob;
pub use set::{GlobFault, is_folder_left_out, is_left_out, read_globs};
