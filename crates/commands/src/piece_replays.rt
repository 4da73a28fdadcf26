//! Replays beside which blocks are held that cannot be proved yet.
ghost use Rattle.std.specs.Prelude.{◌≡◌, ◌≢◌, None, Some, IfErr, IfOk, OnErr};
ghost use Rattle.commands.specs.Outcomes.{NamesOutput, NamesSink};
ghost use Rattle.commands.specs.PieceReplays.{IsReplayedByPieces};
ghost use Rattle.replays.specs.ByPieces.{by_pieces_as};
ghost use Rattle.replays.specs.Replay.{IsCutReport, replay_seen};

use crate::answer_sink::AnswerSink;
use benc::{Sink, Source};
use holdings::Holdings;
use lines::{LineSink, Nowhere};
use printing::{Fault, OUTPUT};
use session::{NodeMap, Session};
use std::alloc::Global;

/// Replays a record over a session as `replay` does, and holds the blocks that cannot be proved
/// yet. The status is also 1 if held blocks were false or gave way, or are still held at the end.
pub fn replay_pieces<'a, N: NodeMap, R: Source, L: LineSink>(
    alloc: Global,
    session: &mut Session<'_, N>,
    holdings: &mut Holdings,
    source: &mut R,
    out: &mut L,
    cuts: bool,
) -> Result<u8, Fault<'a>>
    ensures replayed { IfOk result (IsReplayedByPieces L.spelled
        (replay_seen cuts (R.seen source.old) session.old holdings.old (L.seen out.old) None)
        (replay_seen cuts (R.seen source.new) session.new holdings.new (L.seen out.new) None)) }
    ensures cut { OnErr result (IsCutReport (by_pieces_as L.spelled)
        (replay_seen cuts (R.seen source.old) session.old holdings.old (L.seen out.old) None)
        (replay_seen cuts (R.seen source.new) session.new holdings.new (L.seen out.new) None)) }
    ensures fault { IfErr result NamesOutput }
{
    let answers = None::<&mut Nowhere>;
    match replays::replay_pieces(alloc, session, holdings, source, out, answers, cuts) {
        Ok(outcome) => Ok(outcome.status()),
        Err(_) => Err(Fault::Write(OUTPUT)),
    }
}

/// The same, and writes the answers to the record's hash requests to that sink.
pub fn replay_pieces_and_answer<'a, N: NodeMap, R: Source, L: LineSink, A: Sink>(
    alloc: Global,
    session: &mut Session<'_, N>,
    holdings: &mut Holdings,
    source: &mut R,
    out: &mut L,
    cuts: bool,
    answers: &mut AnswerSink<'a, A>,
) -> Result<u8, Fault<'a>>
    ensures replayed { IfOk result (IsReplayedByPieces L.spelled
        (replay_seen cuts (R.seen source.old) session.old holdings.old (L.seen out.old)
        (Some (A.seen answers.old.sink)))
        (replay_seen cuts (R.seen source.new) session.new holdings.new (L.seen out.new)
        (Some (A.seen answers.new.sink)))) }
    ensures cut { OnErr result (IsCutReport (by_pieces_as L.spelled)
        (replay_seen cuts (R.seen source.old) session.old holdings.old (L.seen out.old)
        (Some (A.seen answers.old.sink)))
        (replay_seen cuts (R.seen source.new) session.new holdings.new (L.seen out.new)
        (Some (A.seen answers.new.sink)))) }
    ensures output { (L.seen out.new).faults ≢ (L.seen out.old).faults → IfErr result NamesOutput }
    ensures answers { (L.seen out.new).faults ≡ (L.seen out.old).faults
        → IfErr result (NamesSink answers.old.path.now) }
{
    let faults = out.faults();
    let sink = Some(&mut answers.sink);
    match replays::replay_pieces(alloc, session, holdings, source, out, sink, cuts) {
        Ok(outcome) => Ok(outcome.status()),
        Err(_) if out.faults() != faults => Err(Fault::Write(OUTPUT)),
        Err(_) => Err(Fault::Write(answers.path)),
    }
}
