//! Devices over memory, for tests: they move a set number of bytes a call, and fail at a set call.
mod calls;
mod sink;
mod source;

pub use calls::Calls;
pub use sink::MemSink;
pub use source::MemSource;
