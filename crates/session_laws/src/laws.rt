//! The laws of runs of messages, each as the contract of a function that does nothing.

ghost use Rattle.session.specs.Laws.{RunKeepsPromises};
ghost use Rattle.session_laws.specs.Calling.{MarksComeFromCalls};
ghost use Rattle.session_laws.specs.ClosedCalls.{CallsKeepTreesClosed};
ghost use Rattle.session_laws.specs.Calls.{CallRoundsAreAtMostGaps, CallRoundsMakeAllKnown, CallsJoin, SafeRunKeepsKnown};
ghost use Rattle.session_laws.specs.Inputs.{MessagesAreInUse, TreesAreInUse, FileIsInUse, TrustedRunsOfInputs};
ghost use Rattle.session_laws.specs.Marks.{MarksComeFromBlocks, NotedMarksComeFromBlocks, KnownLeafIsTheBlock};
ghost use Rattle.session.specs.NotedLaws.{ConversionRunsAsFormOne, FormOneRunsAsConversion, ConversionReplaysAsFormOne, OneRunWithMemory, ConversionGivesTheSame, NotedStaysOpen, IncomingOpensNothing, NotedRunKeeps, NotedRoundsCloseGaps, NotedRoundsAreAtMostGaps, NotedRoundsMakeAllKnown, SafeNotedRunIsRun};
ghost use Rattle.session.specs.TrustLaws.{TrustedBlockIsTheBlock, TrustedHashesAreStored, TrustedAnswersAreStored, TrustedAnswerClosesOneGap, TrustedBlockIsTaken, TrustedRoundsNameNone, TrustedRuns, TrustedNotedRuns};
ghost use Rattle.session.specs.EndLaws.{ServedAsksAreAnswered, ServedWantsAreAnswered, ServingStays};
ghost use Rattle.session.specs.RoundLaws.{NoGapMeansNothingWanted, NothingWantedMeansNoGap, WantedAnswerLeadsToRoot, RunGapsNeverRise, RoundsCloseGaps, RoundsAreAtMostGaps, RoundsMakeAllKnown, SafeRunIsRun};

/// A run keeps all trees closed, and each block that it verifies is the block of every file that
/// fits, or a collision is named.
pub fn run_keeps_promises()
    ensures { RunKeepsPromises }
{}

/// A leaf that is marked after a run was marked before it, or an entry of a verdict of the run
/// verified that block of that tree, and then it is the block. So it is after calls of any kind:
/// messages, blocks and whole pieces, leaves, whole layers and trees. Bytes whose digest is a known
/// leaf, as `Session::mark_leaf` takes it, are the block too.
pub fn marks_come_from_blocks()
    ensures runs { MarksComeFromBlocks }
    ensures noted_runs { NotedMarksComeFromBlocks }
    ensures calls { MarksComeFromCalls }
    ensures leaf { KnownLeafIsTheBlock }
{}

/// Calls of any kind keep the trees of a session closed, and each marked leaf known. A caller that
/// has only what each call says of itself, as one from another language, has with it the premise of
/// the laws of what is held.
pub fn calls_keep_trees_closed()
    ensures { CallsKeepTreesClosed }
{}

/// A round leaves fewer gaps, whatever else it holds, unless memory was refused for its answer or a
/// collision is named; so with memory there are at most as many rounds as gaps, and after that many
/// each block's leaf is known. What `Session::run` says it did is such a run. The same holds of
/// rounds of calls of any kind: messages one by one, whole layers and trees, pieces. What is asked
/// of calls is what each says of itself, and a run keeps what is known too.
pub fn rounds_close_gaps()
    ensures never_rise { RunGapsNeverRise }
    ensures round { RoundsCloseGaps }
    ensures all { RoundsAreAtMostGaps }
    ensures done { RoundsMakeAllKnown }
    ensures calls { CallRoundsAreAtMostGaps }
    ensures calls_done { CallRoundsMakeAllKnown }
    ensures joined { CallsJoin }
    ensures run_keeps { SafeRunKeepsKnown }
    ensures safe { SafeRunIsRun }
{}

/// No gap is left exactly if nothing is wanted, and the true answer to what is wanted leads to the
/// root.
pub fn gaps_are_wants()
    ensures none { NoGapMeansNothingWanted }
    ensures all { NothingWantedMeansNoGap }
    ensures root { WantedAnswerLeadsToRoot }
{}

/// A session that knows the leaves of all of a file's blocks and the pads beside its end, which
/// come with its last piece, answers each ask for at most 512 hashes that has a node over a block
/// in its range, and whatever any session of that torrent wants of the file. That stays so.
pub fn all_blocks_are_served()
    ensures asks { ServedAsksAreAnswered }
    ensures wants { ServedWantsAreAnswered }
    ensures stays { ServingStays }
{}

/// If memory was refused for no request, the replay of a conversion gives what came in the verdicts
/// that form 1 allows, and leaves the same trees and marks; each run of form 1 is such a run. With
/// memory for all, messages have one run, so a conversion gives what its record of form 1 does.
pub fn conversion_replays_as_form_1()
    ensures runs { ConversionRunsAsFormOne }
    ensures back { FormOneRunsAsConversion }
    ensures replays { ConversionReplaysAsFormOne }
    ensures one { OneRunWithMemory }
    ensures same { ConversionGivesTheSame }
{}

/// A noted ask is open until the hashes of its base range are known, and what comes in opens none.
/// A run that notes keeps all trees closed, and no tree has more gaps after it. A round leaves
/// fewer if what was wanted was noted before its true answer comes, unless memory was refused for
/// that answer or to note it, or a collision is named; so with memory there are at most as many
/// such rounds as gaps, and after that many each block's leaf is known. What `Session::run_noted`
/// says it did is such a run.
pub fn noted_asks_close_gaps()
    ensures stays { NotedStaysOpen }
    ensures ours { IncomingOpensNothing }
    ensures keeps { NotedRunKeeps }
    ensures round { NotedRoundsCloseGaps }
    ensures all { NotedRoundsAreAtMostGaps }
    ensures done { NotedRoundsMakeAllKnown }
    ensures safe { SafeNotedRunIsRun }
{}

/// Nothing is left of the named collisions to one who trusts SHA-256: for every test on inputs
/// within which no two different ones have one digest (those ever hashed, say), if the inputs that
/// a file's tree and a session give to SHA-256 pass it. A verified block is that block of every
/// file that fits, true hashes and answers are stored and close their gap unless memory is refused,
/// and the true block of a known leaf is taken; so at each step of each run, if the blocks of its
/// messages pass, and what is known at its end.
pub fn trusting_sha256()
    ensures block { TrustedBlockIsTheBlock }
    ensures hashes { TrustedHashesAreStored }
    ensures answers { TrustedAnswersAreStored }
    ensures gap { TrustedAnswerClosesOneGap }
    ensures taken { TrustedBlockIsTaken }
    ensures rounds { TrustedRoundsNameNone }
    ensures runs { TrustedRuns }
    ensures noted_runs { TrustedNotedRuns }
{}

/// The inputs in use of a run, its last state and a file are one finite list (`inputs_of`): each
/// block of the run's messages is on it, each two siblings that are known at its end, joined, and
/// each block and each two siblings of the file. So one who trusts that no two different ones of
/// these have one digest has the promises of `trusting_sha256` with no further premise.
pub fn trusting_the_inputs_in_use()
    ensures messages { MessagesAreInUse }
    ensures trees { TreesAreInUse }
    ensures file { FileIsInUse }
    ensures runs { TrustedRunsOfInputs }
{}
