//! The lines of `show`, and the line of a torrent that is refused. They go to a sink, or to what
//! takes lines.
#![tactic(auto)]

mod refused;
mod showing;

pub use refused::{refusal_line, refusal_line_onto};
pub use showing::{show, show_onto};
