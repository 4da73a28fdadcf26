//! The parts in which a torrent is made: which pieces each has, and the text that says what was
//! hashed of them.
#![tactic(auto)]

mod division;
mod head;
mod listing;
mod reading;
mod scan;
mod writing;

pub use division::{Division, Span, hashed};
pub use head::{Head, read_head};
pub use listing::{ListedFile, Listing, listed_files};
pub use reading::{ListingFault, read_listing};
pub use writing::write_head;
