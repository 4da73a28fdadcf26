//! The peer messages that carry hash trees and blocks (BEP 3, BEP 52), in frames.
#![tactic(auto)]

mod fault;
mod fields;
mod form;
mod frame;
mod framing;
mod kind;
pub mod laws;
mod message;
mod parse;
mod reader;
mod record;
mod record_reader;
mod writing;

pub use benc::WriteFault;
pub use fault::FrameFault;
pub use form::{Direction, HEADER};
pub use frame::{Frame, frame_in, is_hashes};
pub use kind::{ASK_SIZE, REQUEST_ID};
pub use message::{Ask, Hash, Message};
pub use parse::number_at;
pub use reader::FrameReader;
pub use record_reader::RecordReader;
/// What `reserve` answers if memory was refused.
pub use std::alloc::AllocError as NoMemory;
pub use writing::write;
