//! What follows of several calls together. A function that calls one of these knows its law.

pub use part_laws::{
    join_prints_the_check, true_marked_parts_report, yes_of_marked_texts,
    yes_of_marked_texts_apart, yes_of_parts_apart, yes_of_texts_apart,
};
pub use part_reports::laws::{
    all_reports_are_joined, texts_make_the_report, true_parts_report, yes_of_texts,
};
pub use parts::laws::{parts_make_the_report, places_are_tested, report_is_one, yes_of_parts};
pub use replay_laws::proved_lines_came;
