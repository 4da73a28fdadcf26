//! What a command of `btcheck` works on: files and folders of the system, the standard streams, and
//! the progress line.
#![tactic(auto)]

mod choice;
mod fault;
mod folder;
mod identity;
mod lengths;
mod listing;
mod look;
mod names;
mod noted;
mod of_torrent;
mod offsets;
mod others;
mod output;
mod pace;
mod paths;
mod place;
mod progress;
mod standard_output;
mod standing;
mod streams;
mod system;

pub use choice::Choice;
pub use fault::print_fault;
pub use folder::Folder;
pub use lengths::{FolderLengths, bytes_of, is_below, lengths_of};
pub use noted::Noted;
pub use of_torrent::{has_file_of, print_lengths};
pub use others::{has_folder, others_below};
pub use output::{create_new_output, create_output, refuse_if_there};
pub use pace::TerminalPace;
pub use paths::folder_and_name;
pub use progress::{Amount, Cleared, Counted, Progress};
pub use standard_output::StandardOutput;
pub use standing::Standing;
pub use streams::{Placeholders, hold_closed_streams};
pub use system::{Cause, System};
