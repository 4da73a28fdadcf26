//! The replay of a record over a session beside which blocks are held that cannot be proved yet.
ghost use Rattle.std.specs.Prelude.{IfOk, OnErr};
ghost use Rattle.replays.specs.Answering.{sink_after, sink_before};
ghost use Rattle.replays.specs.ByPieces.{by_pieces_as};
ghost use Rattle.replays.specs.Replay.{IsCutReport, IsReport, replay_seen};

use crate::answering::Unwanted;
use crate::replaying::replay_reader;
use crate::report::Outcome;
use benc::{Sink, Source, WriteFault};
use holdings::Holdings;
use lines::LineSink;
use session::{NodeMap, Session};
use std::alloc::Global;
use wire::RecordReader;

/// Replays a record as `replay_onto` does, but holds a block whose leaf is not known: `held` stands
/// in place of its refusal. As soon as all blocks of a piece are held or known, and its node is
/// known, they are tried as its leaves. What became of held blocks is told after the line or lines
/// of the frame that made it possible: `proved`, with the first and the last block of each run that
/// is newly marked, or `false`, with those that are given up. A piece that gives way is told by
/// `dropped` before the line of the block that came. If blocks are still held at the end, how many
/// they are stands before the last line. A file is named by its number: the one at the message's
/// place, or the first that has the tree.
///
/// `false`, `dropped` and what is still held count as refusals. What is held takes no memory; if a
/// piece that is to be tried is refused memory, the line is `refused P5 NoMemory`, and what is held
/// stays as it was. All else is as for `replay_onto`.
pub fn replay_pieces<N: NodeMap, R: Source, L: LineSink, A: Sink>(
    alloc: Global,
    session: &mut Session<'_, N>,
    holdings: &mut Holdings,
    source: &mut R,
    report: &mut L,
    answers: Option<&mut A>,
    cuts: bool,
) -> Result<Outcome, WriteFault>
    ensures report { IfOk result (IsReport (by_pieces_as L.spelled)
        (replay_seen cuts (R.seen source.old) session.old holdings.old (L.seen report.old)
        (sink_before A.seen answers.entry))
        (replay_seen cuts (R.seen source.new) session.new holdings.new (L.seen report.new)
        (sink_after A.seen answers.exit))) }
    ensures cut_report { OnErr result (IsCutReport (by_pieces_as L.spelled)
        (replay_seen cuts (R.seen source.old) session.old holdings.old (L.seen report.old)
        (sink_before A.seen answers.entry))
        (replay_seen cuts (R.seen source.new) session.new holdings.new (L.seen report.new)
        (sink_after A.seen answers.exit))) }
{
    let mut reader = RecordReader::new(alloc, source);
    match answers {
        Some(sink) => replay_reader(session, holdings, &mut reader, report, sink, cuts),
        None => replay_reader(session, holdings, &mut reader, report, &mut Unwanted, cuts),
    }
}
