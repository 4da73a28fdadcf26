//! The laws of what is held, each as the contract of a function that does nothing.

ghost use Rattle.holdings.specs.Runs.{ProvedWasTheBlock};
ghost use Rattle.holdings.specs.TruePieces.{TruePieceIsProved};

/// In every run, whatever else happens to the session in between: a block that is proved was, when
/// it came last, that block of every file with the tree's length and root, or two inputs with one
/// digest are named.
pub fn proved_was_the_block()
    ensures { ProvedWasTheBlock }
{}

/// Poison does no harm: whatever was held before, a piece whose node is known, and whose newest
/// digests or else known leaves are those of a file that fits, is not passed over, and what is
/// settled of it is proved, unless memory is refused or a collision is named.
pub fn true_piece_is_proved()
    ensures { TruePieceIsProved }
{}
