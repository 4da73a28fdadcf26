//! Which digests of version 1 pieces are wanted.

/// Which digests of version 1 pieces are wanted.
#[derive(Clone, Copy)]
pub enum CutsWanted {
    /// None.
    Nothing,
    /// Those of the pieces, the last of each file filled up with zeros.
    Filled,
    /// Those, and those of the pieces as they are.
    Both,
}
