//! What holds of a folder that is gathered and written as a torrent, and then opened and checked.
#![tactic(auto)]

mod laws;

pub use laws::{
    adds_change_places, alike_write_alike, gathered_checks_good, sorted_listings_are_one,
};
