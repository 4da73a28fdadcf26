//! The law of what a report says was proved, as the contract of a function that does nothing.

ghost use Rattle.replays.specs.ProvedLines.{CutLinesCame, ProvedFramesCame, ProvedLinesCame};

/// A line `N proved FILE FIRST LAST` of a replay by pieces that began with nothing held, as text or
/// as a JSON object, names blocks of FILE, at least one. Each of them came in frame N or before it,
/// as an entry that was unproved and was held; and the bytes of the last such entry are that block
/// of every file with the tree's length and root, or two inputs with one digest are named. So it is
/// of each line of a report that was cut off, and of the frames of such a replay.
/// Condition: the session's last state has closed trees, as `Session::recall_closed_trees` says of
/// every session.
pub fn proved_lines_came()
    ensures frames { ProvedFramesCame }
    ensures whole { ProvedLinesCame }
    ensures cut { CutLinesCame }
{}
