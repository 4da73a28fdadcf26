//! What is said of blocks that were held.

/// Blocks of a tree, from `first` to `last`, numbered from 0.
#[derive(Clone, Copy)]
pub struct Run {
    /// The tree, in the torrent's order.
    pub tree: usize,
    /// Its first block.
    pub first: u64,
    /// Its last block, which is not before the first.
    pub last: u64,
}

/// What became of blocks that were held.
#[derive(Clone, Copy)]
pub enum Settled {
    /// They are marked: their digests are the known leaves.
    Proved(Run),
    /// They are given up: a whole piece whose leaves lead to another node than the known one, or
    /// one block whose known leaf is another digest.
    False(Run),
}
