//! The lines that `btcheck` prints: each kind is a row of one table, and a line's text and its JSON
//! object are made of its row.
#![tactic(auto)]

mod checked;
mod compared;
mod frames;
mod gathered;
mod line;
mod line_sink;
mod nowhere;
mod object;
mod out_fault;
mod part;
mod parted;
mod plain;
mod reading;
mod refusal;
mod shown;
mod string;
mod text;

pub use checked::Checked;
pub use line::{Line, finish_after, say, say_last};
pub use line_sink::{LineSink, Objects};
pub use nowhere::Nowhere;
pub use out_fault::OutFault;
pub use parted::Parted;
pub use reading::strip_line;
pub use shown::Shown;
