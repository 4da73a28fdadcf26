//! How the C library lays out for C what it is asked and what it answers: structs, statuses, the
//! text of a path, frames, and the bitfield of a session. It has no export and no handle.
#![tactic(auto)]

pub mod answer_frame;
pub mod ask_frames;
pub mod asked;
pub mod bitfield;
pub mod bits;
pub mod blocks_info;
pub mod cursor_info;
pub mod draft_status;
pub mod file_info;
mod frame_head;
pub mod hashes_frame;
pub mod held_info;
pub mod marks;
pub mod path_text;
pub mod piece_info;
mod putting;
pub mod range_info;
pub mod refusal_info;
pub mod status;
pub mod taken_info;
pub mod torrent_info;
pub mod verdict_info;
pub mod whole_frame;
