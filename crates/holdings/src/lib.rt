//! What a client holds of blocks that came before they can be proved. Clients ask their peers for
//! the nodes of pieces and seldom for leaves (BEP 52), so most blocks come while their own leaf is
//! not known. Of such a block the digest is held. As soon as all blocks of a piece are held or
//! known, and its node is known, they are tried as the leaves of that piece.
//!
//! ```text
//!            node           known, from the piece layer or a hashes message
//!          /      \
//!        .          .
//!      /   \      /   \
//!     d     d    d     ?    three digests held: when the fourth comes, all four are tried
//! ```
#![tactic(auto)]

mod holding;
mod holdings;
mod kept;
mod next;
mod piece_range;
mod piece_table;
mod run;
mod settling;

pub use hashtree::NoMemory;
pub use holding::Hold;
pub use holdings::Holdings;
pub use piece_range::Pieces;
pub use run::{Run, Settled};
