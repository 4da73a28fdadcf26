//! What `btcheck` does and prints, over devices that a caller gives.
#![tactic(auto)]

pub mod laws;

pub use conversions::{ConvertFault, convert};
pub use folders::{
    FileVerdict, Lines, NoMemory, Pace, Report, RootFault, SeekShelf, Shelf, ShelfFault, Unhurried,
    V1Verdict, memory, print_report, root_line,
};
pub use gathering::{GatherFault, gather};
pub use holdings::Holdings;
pub use part_reports::{
    JoinFault, MarkedReport, join_marked_reports, join_reports, say_marked_report,
};
pub use parts::{
    CheckFault, Places, check, check_part, say_check, say_check_part_with_bad_pieces,
    say_check_with_bad_pieces, say_part,
};
pub use printing::{Fault, fault_line};
pub use replays::{Outcome, replay, replay_onto, replay_pieces};
pub use seeding::{SeedFault, seed};
pub use torrent_lines::{refusal_line, show};
