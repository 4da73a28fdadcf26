//! What `btcheck` prints beside the lines of its reports: texts, paths and faults.
#![tactic(auto)]

mod fault;
mod text;

pub use fault::{Fault, OUTPUT, fault_line};
pub use text::{ShortLine, flush_after, write_escaped, write_line, write_path};
