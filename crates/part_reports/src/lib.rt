//! The reports of the parts of a check, read again and joined.
#![tactic(auto)]

mod head;
mod join_fault;
mod joining;
mod kind;
pub mod laws;
mod marked_report;
mod numbers;
mod report_lines;
mod runs;
mod starts;
mod whole_lines;
mod words;

pub use join_fault::JoinFault;
pub use joining::{join_marked_reports, join_reports};
pub use kind::{Kind, kind_of};
pub use marked_report::{BadPieces, MarkedReport};
pub use whole_lines::say_marked_report;
