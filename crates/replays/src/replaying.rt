//! The replay of a record: its frames go to a session, and a line reports each.
ghost use Rattle.std.specs.Prelude.{◌≡◌, ◌<◌, ◌+◌, ◌^◌, false, None, Some, IfOk, OnOk, OnErr};
ghost use Rattle.replays.specs.Answering.{sink_after, sink_before};
ghost use Rattle.replays.specs.Replay.{IsCutReport, IsReport, replay_seen};
ghost use Rattle.replays.specs.Telling.{plain_as};
ghost use Rattle.lines.specs.Texts.{text_of};
ghost use Rattle.replays.specs.TellingOf.{NextReply};
ghost use Rattle.wire.specs.Reader.{HasRoom, IsOpen, KeepsSource};
ghost use Rattle.wire.specs.RecordReader.{form_of, frame_reader, record_source_of};

use crate::answering::{Answering, Unwanted};
use crate::ending::end_replay;
use crate::handing::{frame_as, respond};
use crate::report::{Ending, Outcome, Reply, Reported, Stop};
use crate::telling::{Plain, TellsFrames};
use benc::{Sink, Source, WriteFault};
use lines::{LineSink, Nowhere, OutFault};
use session::{NodeMap, Session};
use std::alloc::Global;
use wire::{FrameFault, RecordReader};

const OUT_OF_MEMORY: Ending = Ending::Fault(FrameFault::NoMemory);

/// Reads the frames of a record of either form to its end or to a fault, and gives each message to
/// the session. In form 1 each came in. In form 2 a request that went out is noted, and hashes that
/// came in are taken only in answer to it. Writes one line for each frame as it comes, and at last
/// how the record ended. If there is a sink for answers, the frame that answers a "hash request"
/// that came in goes there, after its line: "hashes" with those that are asked for, if they are
/// known, and else a "hash reject" (BEP 52). At last the report is flushed, and then the answers.
///
/// All memory but that of answers is taken before the first frame is read. If it is refused, the
/// report is the line `fault NoMemory`, and nothing is read. If memory is refused for an answer,
/// the report ends with that line, and nothing of the answer goes out. `WriteFault` is that of the
/// sink whose count of faults grew; then the session stands after the messages handled so far, the
/// one included whose line or answer failed.
pub fn replay<N: NodeMap, R: Source, W: Sink, A: Sink>(
    alloc: Global,
    session: &mut Session<'_, N>,
    source: &mut R,
    report: &mut W,
    answers: Option<&mut A>,
) -> Result<Outcome, WriteFault>
    ensures report { IfOk result (IsReport (plain_as text_of)
        (replay_seen false (R.seen source.old) session.old tt (W.seen report.old)
        (sink_before A.seen answers.entry))
        (replay_seen false (R.seen source.new) session.new tt (W.seen report.new)
        (sink_after A.seen answers.exit))) }
    ensures cut_report { OnErr result (IsCutReport (plain_as text_of)
        (replay_seen false (R.seen source.old) session.old tt (W.seen report.old)
        (sink_before A.seen answers.entry))
        (replay_seen false (R.seen source.new) session.new tt (W.seen report.new)
        (sink_after A.seen answers.exit))) }
{
    match answers {
        Some(out) => replay_onto(alloc, session, source, report, Some(out), false),
        None => replay_onto(alloc, session, source, report, None::<&mut Nowhere>, false),
    }
}

/// Does what `replay` does, onto anything that takes lines, spelled as it spells them: as texts, or
/// as JSON objects. With `cuts` each message is handled exactly as `without_padding` of the crate
/// `padded` has it: the zeros behind the end of a file, with which a client makes its last block a
/// whole one, are cut away. Bytes behind the end that are not all zeros stay, and so the message is
/// refused.
pub fn replay_onto<N: NodeMap, R: Source, L: LineSink, A: Sink>(
    alloc: Global,
    session: &mut Session<'_, N>,
    source: &mut R,
    report: &mut L,
    answers: Option<&mut A>,
    cuts: bool,
) -> Result<Outcome, WriteFault>
    ensures report { IfOk result (IsReport (plain_as L.spelled)
        (replay_seen cuts (R.seen source.old) session.old tt (L.seen report.old)
        (sink_before A.seen answers.entry))
        (replay_seen cuts (R.seen source.new) session.new tt (L.seen report.new)
        (sink_after A.seen answers.exit))) }
    ensures cut_report { OnErr result (IsCutReport (plain_as L.spelled)
        (replay_seen cuts (R.seen source.old) session.old tt (L.seen report.old)
        (sink_before A.seen answers.entry))
        (replay_seen cuts (R.seen source.new) session.new tt (L.seen report.new)
        (sink_after A.seen answers.exit))) }
{
    let mut reader = RecordReader::new(alloc, source);
    match answers {
        Some(out) => replay_reader(session, &mut Plain, &mut reader, report, out, cuts),
        None => replay_reader(
            session,
            &mut Plain,
            &mut reader,
            report,
            &mut Unwanted,
            cuts,
        ),
    }
}

// Takes the memory, and reads frames to the end or to a fault.
pub(crate) fn replay_reader<N: NodeMap, K: TellsFrames, R: Source, L: LineSink, B: Answering>(
    session: &mut Session<'_, N>,
    keeper: &mut K,
    reader: &mut RecordReader<'_, R>,
    report: &mut L,
    answers: &mut B,
    cuts: bool,
) -> Result<Outcome, WriteFault>
    requires open { IsOpen (frame_reader reader.old) }
    requires fresh { form_of reader.old ≡ None }
    ensures source { KeepsSource (frame_reader reader.old) (frame_reader reader.new) }
    ensures report { IfOk result (IsReport (K.teller L.spelled)
        (replay_seen cuts (R.seen (record_source_of reader.old)) session.old (K.kept keeper.old)
        (L.seen report.old) (B.seen answers.old))
        (replay_seen cuts (R.seen (record_source_of reader.new)) session.new (K.kept keeper.new)
        (L.seen report.new) (B.seen answers.new))) }
    ensures cut_report { OnErr result (IsCutReport (K.teller L.spelled)
        (replay_seen cuts (R.seen (record_source_of reader.old)) session.old (K.kept keeper.old)
        (L.seen report.old) (B.seen answers.old))
        (replay_seen cuts (R.seen (record_source_of reader.new)) session.new (K.kept keeper.new)
        (L.seen report.new) (B.seen answers.new))) }
{
    match reader.reserve() {
        Ok(()) => replay_frames(session, keeper, reader, report, answers, cuts),
        Err(_) => end_replay(report, keeper, answers, Outcome::default(), OUT_OF_MEMORY),
    }
}

// Reads frames to the end or to a fault.
fn replay_frames<N: NodeMap, K: TellsFrames, R: Source, L: LineSink, B: Answering>(
    session: &mut Session<'_, N>,
    keeper: &mut K,
    reader: &mut RecordReader<'_, R>,
    report: &mut L,
    answers: &mut B,
    cuts: bool,
) -> Result<Outcome, WriteFault>
    requires open { IsOpen (frame_reader reader.old) }
    requires fresh { form_of reader.old ≡ None }
    requires room { HasRoom (frame_reader reader.old) }
    ensures source { KeepsSource (frame_reader reader.old) (frame_reader reader.new) }
    ensures report { IfOk result (IsReport (K.teller L.spelled)
        (replay_seen cuts (R.seen (record_source_of reader.old)) session.old (K.kept keeper.old)
        (L.seen report.old) (B.seen answers.old))
        (replay_seen cuts (R.seen (record_source_of reader.new)) session.new (K.kept keeper.new)
        (L.seen report.new) (B.seen answers.new))) }
    ensures cut_report { OnErr result (IsCutReport (K.teller L.spelled)
        (replay_seen cuts (R.seen (record_source_of reader.old)) session.old (K.kept keeper.old)
        (L.seen report.old) (B.seen answers.old))
        (replay_seen cuts (R.seen (record_source_of reader.new)) session.new (K.kept keeper.new)
        (L.seen report.new) (B.seen answers.new))) }
{
    let mut outcome = Outcome::default();
    let mut number = 0;
    'frames: loop {
        let next = NextFrame {
            after: number,
            cuts,
        };
        let reply = match next_reply(session, keeper, reader, report, next, &mut outcome) {
            Ok(reply) => reply,
            Err(Stop::Ended(ending)) => {
                return end_replay(report, keeper, answers, outcome, ending);
            }
            Err(Stop::Write) => return Err(WriteFault::Write),
        };
        number += 1;
        match answers.answer(session, reply) {
            Ok(()) => {}
            Err(OutFault::NoMemory) => {
                return end_replay(report, keeper, answers, outcome, OUT_OF_MEMORY);
            }
            Err(OutFault::Write) => return Err(WriteFault::Write),
        }
    }
}

// How the next frame is handled: after this many others, and with its padding cut away or not.
#[derive(Clone, Copy)]
struct NextFrame {
    after: u64,
    cuts: bool,
}

// Tells the next frame: what is to be answered to it; or how the record ended if there is none, or
// that its lines broke off.
#[inline(always)]
fn next_reply<N: NodeMap, K: TellsFrames, R: Source, L: LineSink>(
    session: &mut Session<'_, N>,
    keeper: &mut K,
    reader: &mut RecordReader<'_, R>,
    report: &mut L,
    next: NextFrame,
    outcome: &mut Outcome,
) -> Result<Reply, Stop>
    requires open { IsOpen (frame_reader reader.old) }
    requires room { HasRoom (frame_reader reader.old) }
    requires count { next.after + (R.seen (record_source_of reader.old)).limit < 2 ^ 64 }
    ensures source { KeepsSource (frame_reader reader.old) (frame_reader reader.new) }
    ensures next { NextReply (K.teller L.spelled) next.cuts next.after
        (form_of reader.old) (form_of reader.new)
        (replay_seen next.cuts (R.seen (record_source_of reader.old)) session.old
        (K.kept keeper.old) (L.seen report.old) None)
        (replay_seen next.cuts (R.seen (record_source_of reader.new)) session.new
        (K.kept keeper.new) (L.seen report.new) None) outcome.old outcome.new result }
    ensures open { OnOk result (IsOpen (frame_reader reader.new)) }
    ensures room { HasRoom (frame_reader reader.new) }
{
    match reader.advance() {
        Ok(true) => {
            let frame = frame_as(session.torrent(), reader.frame(), next.cuts);
            let response = respond(session, reader.form(), frame);
            let met = Reported {
                number: next.after + 1,
                frame,
                report: &response.report,
            };
            match keeper.tell(session, report, met, outcome) {
                Ok(()) => Ok(response.reply),
                Err(_) => Err(Stop::Write),
            }
        }
        Ok(false) => Err(Stop::Ended(Ending::End)),
        Err(fault) => Err(Stop::Ended(Ending::Fault(fault))),
    }
}
