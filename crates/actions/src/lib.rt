//! What the program can be asked for: the command that the arguments name, and what it works on.
#![tactic(auto)]

mod command;
mod creation;

pub use command::{
    Action, Asked, Assemble, Check, CheckPart, Convert, Create, Join, NumberedPart, Replay,
};
pub use creation::{NewTorrent, Origin, PieceLengthChoice, auto_length};
