//! The law of exports, as the contract of a function that does nothing.

ghost use Rattle.session_exports.specs.Exports.{ExportsAllLeaves};

/// Exports of one session, each from where the one before it ended, until there is none, have each
/// known leaf from the first point on: all of them from `Point { tree: 0, block: 0 }` on, but for
/// those that are roots.
pub fn exports_are_whole()
    ensures { ExportsAllLeaves }
{}
