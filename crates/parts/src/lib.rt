//! The checks of a folder: whole, or in parts, each by a process of its own, and the join of what
//! parts report.
#![tactic(auto)]

mod all_files;
mod job;
mod judging;
pub mod laws;
mod part;
mod part_lines;
mod places;
mod room;
mod row;
mod telling;
mod verdicts;
mod visiting;
mod whole;

pub use lines::OutFault as CheckFault;
pub use part::{check_part, say_check_part_with_bad_pieces};
pub use part_lines::{say_part, strip_answer};
pub use places::{Places, piece_count, touches};
pub use telling::{PieceBits, Telling, has_runs, say_run, say_runs, strip_run};
pub use verdicts::{join, worse, worse_v1};
pub use whole::{check, say_check, say_check_with_bad_pieces};
