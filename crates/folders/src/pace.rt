//! When lines that wait for others are to be said.

/// Tells whoever judges several files together when their lines have waited long enough, as a
/// person at a terminal sees it. It chooses only how many files are judged together: what is said,
/// and in which order, does not depend on it.
pub trait Pace {
    /// From now on a line waits, if none did before.
    fn wait(&mut self);

    /// Whether the lines that wait are to be said now. Then none waits any more.
    fn is_due(&mut self) -> bool;
}

/// Lines may wait as long as it takes.
#[derive(Clone, Copy, Debug, Drop)]
pub struct Unhurried;

impl Pace for Unhurried {
    fn wait(&mut self) {}

    fn is_due(&mut self) -> bool {
        false
    }
}
