//! Shelves, how a file is read and judged as a row of pieces, what is reported of a folder, and the
//! root of a file.
#![tactic(auto)]

mod file_reader;
mod lengths;
pub mod memory;
mod pace;
mod report;
mod report_lines;
mod room;
mod root;
mod row_feed;
mod shelf;
mod shelf_fault;
mod taking;

pub use file_reader::{FileReader, visit, visit_at};
pub use lengths::{Lengths, Unknown};
pub use pace::{Pace, Unhurried};
pub use report::{FileVerdict, Report, V1Verdict};
pub use report_lines::{
    Lines, print_report, say_end, say_report, say_verdict, say_version1, say_wanted, strip_verdict,
    strip_version1,
};
pub use room::{RoomReader, room_for_files};
pub use root::{RootFault, root_line, root_line_onto};
pub use row_feed::{Cuts, RowFeed, RowFound};
pub use shelf::{SeekShelf, Shelf};
pub use shelf_fault::ShelfFault;
pub use std::alloc::AllocError as NoMemory;
pub use taking::{BUFFER_LENGTH, Consumer, ReadFault, fill, take_all, take_exactly, taken};
