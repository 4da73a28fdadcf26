//! Files and shelves over memory, for tests: they fail at a set call.

mod file;
mod shelf;

pub use file::MemFile;
pub use shelf::MemShelf;
