//! What the parts of a check make together where each saw contents of its own, and what a join of
//! their marked reports prints.
#![tactic(auto)]

mod laws;

pub use laws::{
    join_prints_the_check, true_marked_parts_report, yes_of_marked_texts,
    yes_of_marked_texts_apart, yes_of_parts_apart, yes_of_texts_apart,
};
