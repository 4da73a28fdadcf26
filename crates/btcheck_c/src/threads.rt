//! Handles may move between threads.

use crate::handle::Handle;

/// May be called for exactly those types whose values may move to another thread.
pub fn may_move<T: Send>() {}

/// A [`Handle`] may move to another thread. Of a handle that may not, this has no proof.
pub fn handles_may_move() {
    may_move::<Handle>();
}
