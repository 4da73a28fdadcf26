//! What peers send of hash trees and blocks.

/// A SHA-256 digest.
pub type Hash = [u8; 32];

/// The five fields of a hash request, and of the hashes message or the reject that answers it (BEP
/// 52).
#[derive(Clone, Copy, Debug, PartialEq, Eq, PartialOrd, Ord)]
pub struct Ask {
    /// The root of the tree.
    pub root: Hash,
    /// The layer of the wanted hashes, counted from the leaves, which are layer 0.
    pub base: u32,
    /// The number of the first wanted hash in its layer.
    pub index: u32,
    /// How many hashes are wanted.
    pub length: u32,
    /// How many layers above the base layer the proof may reach: a bound on the number of uncles,
    /// of which fewer come if the proof meets the root or the wanted hashes span layers themselves.
    pub proof: u32,
}

/// A message. Blocks and hashes are lent.
#[derive(Clone, Copy, Debug, PartialEq)]
pub enum Message<'a> {
    /// A block of a piece (BEP 3): the piece's number, the block's first byte in the piece, the
    /// bytes.
    Piece {
        /// The piece's number.
        index: u32,
        /// Where the block begins in the piece, in bytes.
        begin: u32,
        /// The bytes.
        block: &'a [u8],
    },
    /// Asks for hashes.
    Request(Ask),
    /// Hashes of the base layer, then uncles, the one nearest the root last.
    Hashes {
        /// What was asked for.
        ask: Ask,
        /// The hashes.
        hashes: &'a [Hash],
    },
    /// No hashes come for this ask.
    Reject(Ask),
    /// A frame without a body.
    KeepAlive,
    /// A message of another id.
    Other {
        /// The id, the body's first byte.
        id: u8,
        /// The length of the body in bytes, its id counted.
        len: u32,
    },
}
