//! The session of a torrent and the root of a file, for programs in C and in languages that call C.
//!
//! `bindings/c/btcheck.h` declares the exports, and says what C must keep. A handle is a [`Handle`]
//! that holds nothing or one `Thing`: the builder of a root, a session with its torrent, or the
//! draft of one, for example. Each call has the thing lent by its handle (`lending.rt`), and does
//! its work in safe code; only `loose.rt` and `slot.rt` touch raw memory.
#![tactic(auto)]

mod ask_calls;
mod block_calls;
mod check_calls;
mod check_starts;
mod drafting_calls;
mod file_calls;
mod file_check;
mod frame_calls;
mod frame_taking;
mod handle;
mod held;
mod hold_calls;
mod holding;
mod keeping_calls;
mod lending;
mod loose;
mod mark_calls;
mod opening_calls;
mod place_calls;
mod root_calls;
mod rows;
mod session_calls;
mod slot;
mod thing;
mod threads;
mod torrent_calls;
mod trees;
mod version;
mod whole_frame_calls;
mod writing_calls;

pub use handle::Handle;
pub use threads::{handles_may_move, may_move};
