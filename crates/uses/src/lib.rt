//! Uses of `metainfo`, `checker`, `session`, `assembling` and `commands`, as a client of these
//! libraries writes them: what each promises follows from the contracts of the calls alone.
#![tactic(auto)]

mod archive;
mod client;
mod judging;
mod making;
#[cfg(test)]
mod part_tests;
mod parts_hashed;
mod parts_reported;
mod records;
mod strangers;
#[cfg(test)]
mod tests;
mod torrents;
mod whole_pieces;

pub use archive::machines_hold_all;
pub use client::{keep_block, trusted_run};
pub use judging::{Holding, judge_folder};
pub use making::{draft_folder, draft_of_parts, write_torrent};
pub use parts_hashed::{text_of_part, torrent_of_parts};
pub use parts_reported::{joined_report, report_part};
pub use records::report_on;
pub use strangers::{take_message, take_messages, verdicts_on};
pub use torrents::{open_torrent, start_session};
pub use whole_pieces::keep_piece;
