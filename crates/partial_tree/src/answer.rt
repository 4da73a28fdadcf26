//! What a tree answers to a hash request.

use hashtree::Hash;

/// What a tree answers to a hash request.
#[derive(Debug, PartialEq, Drop)]
pub enum Answer {
    /// The hashes of the base range, pads among them, and then the uncles, the one nearest the root
    /// last.
    Hashes(Vec<Hash>),
    /// The range is none of the tree's, or not all of its hashes are known.
    Reject,
}
