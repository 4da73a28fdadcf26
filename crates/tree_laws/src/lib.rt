//! The laws of partial trees. Their statements are with the definitions of `partial_tree`.
#![tactic(auto)]

mod laws;

pub use laws::{
    answer_closes_gap, answer_is_accepted, closed_trees_agree, end_pads_let_answer,
    filled_stays_closed, gaps_fall, joined_stays_closed, known_leaf_names_block,
    message_is_accepted_or_refused, message_needs_few_pages, true_message_is_accepted,
    trusted_digests_name_no_collision, whole_is_closed,
};
