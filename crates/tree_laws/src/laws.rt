//! The laws of partial trees, each as the contract of a function that does nothing.

ghost use Rattle.partial_tree.specs.MessagePages.{MessageNeedsFewPages};
ghost use Rattle.partial_tree.specs.Laws.{WholeIsClosed, ClosedTreesAgree, KnownLeafNamesBlock, JoinedStaysClosed, JoinedKeeps, FilledStaysClosed, TrueMessageIsAccepted, AnswerIsAccepted, GapsNeverRise, GapsAreAtMostWindows, NoGapMeansAllKnown, AllKnownMeansNoGap, AnswerClosesOneGap, AnswerLeavesFewerGaps, MessageIsAcceptedOrRefused, TrustedTreesNameNone, TrustedBlockNamesNone, ClosedTreesJoinBytes, WholeTreesJoinBytes, FilesOfBytesGiveBytes, RowBringsEndPads, EndPadsStay, EndPadsLetAnswer, WantedIsShortAsk};

/// The whole tree of a file that fits a tree is closed.
pub fn whole_is_closed()
    ensures { WholeIsClosed }
{}

/// Two closed partial trees of one tree agree wherever both have a value, or a collision of them is
/// named.
pub fn closed_trees_agree()
    ensures { ClosedTreesAgree }
{}

/// A block whose digest is a known leaf is that block of every file that fits, or a collision is
/// named.
pub fn known_leaf_names_block()
    ensures { KnownLeafNamesBlock }
{}

/// A partial tree stays closed when an accepted message is joined to it, and keeps what it has.
pub fn joined_stays_closed()
    ensures closed { JoinedStaysClosed }
    ensures keeps { JoinedKeeps }
{}

/// A partial tree stays closed when an accepted whole layer is joined to it.
pub fn filled_stays_closed()
    ensures { FilledStaysClosed }
{}

/// A message with what a closed tree has is accepted by each closed tree that knows its top, or a
/// collision is named.
pub fn true_message_is_accepted()
    ensures { TrueMessageIsAccepted }
{}

/// What one session answers to an ask with enough proof layers, each other accepts, or a collision
/// is named.
pub fn answer_is_accepted()
    ensures { AnswerIsAccepted }
{}

/// Gaps never rise, are at most the windows that hold a block, and are none exactly if all leaves
/// are known.
pub fn gaps_fall()
    ensures falls { GapsNeverRise }
    ensures at_most { GapsAreAtMostWindows }
    ensures none { NoGapMeansAllKnown }
    ensures all { AllKnownMeansNoGap }
{}

/// An accepted answer to what was wanted closes one gap, and leaves fewer than at the ask.
pub fn answer_closes_gap()
    ensures one { AnswerClosesOneGap }
    ensures fewer { AnswerLeavesFewerGaps }
{}

/// Each message is accepted, or refused by the first refusal that holds of it.
pub fn message_is_accepted_or_refused()
    ensures { MessageIsAcceptedOrRefused }
{}

/// The places of which a hashes message claims something, and those beside them that room is made
/// for before it is stored, lie on at most 59 pages.
pub fn message_needs_few_pages()
    ensures { MessageNeedsFewPages }
{}

/// Trees and blocks name no collision, for every test on inputs within which no two different ones
/// have one digest, if what is hashed for them passes it. What is hashed for closed trees, and for
/// files of bytes, is bytes: a collision of them would be one of real inputs of SHA-256.
pub fn trusted_digests_name_no_collision()
    ensures trees { TrustedTreesNameNone }
    ensures block { TrustedBlockNamesNone }
    ensures closed { ClosedTreesJoinBytes }
    ensures whole { WholeTreesJoinBytes }
    ensures files { FilesOfBytesGiveBytes }
{}

/// A tree that knows the leaves of all blocks and the pads beside the file's end can answer each
/// ask for at most 512 hashes that has a node over a block in its range; whatever is wanted is such
/// an ask. Leaves that reach the file's end bring these pads, and they stay known.
pub fn end_pads_let_answer()
    ensures answers { EndPadsLetAnswer }
    ensures wanted { WantedIsShortAsk }
    ensures brought { RowBringsEndPads }
    ensures stay { EndPadsStay }
{}
