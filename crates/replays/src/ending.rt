//! How the report of a record ends.
ghost use Rattle.std.specs.Prelude.{◌≡◌, ◌++◌, ◌||◌, IfOk};
ghost use Rattle.benc.specs.Device.{WroteAndFlushed};
ghost use Rattle.replays.specs.Answering.{Finishes};
ghost use Rattle.replays.specs.Outcome.{is_fault};
ghost use Rattle.lines.specs.Table.{row_of};
ghost use Rattle.replays.specs.ReplayRows.{ending_row};

use crate::answering::Answering;
use crate::report::{Ending, Outcome};
use crate::telling::TellsFrames;
use benc::WriteFault;
use lines::{Line, LineSink, say_last};
use wire::FrameFault;

/// Writes the last lines and flushes, and then flushes the answers: what the report amounts to
/// then.
pub(crate) fn end_replay<L: LineSink, K: TellsFrames, B: Answering>(
    report: &mut L,
    keeper: &K,
    answers: &mut B,
    outcome: Outcome,
    ending: Ending,
) -> Result<Outcome, WriteFault>
    ensures wrote { Finishes (L.seen report.old) (L.seen report.new)
        (B.seen answers.old) (B.seen answers.new)
        ((K.teller L.spelled).rest (K.kept keeper.now)
        ++ (K.teller L.spelled).ending ending) result }
    ensures outcome { IfOk result (λ o. o ≡ record outcome {
      refused = outcome.refused || (K.teller L.spelled).has_rest (K.kept keeper.now);
      fault = is_fault ending;
    }) }
{
    let outcome = end_report(report, keeper, outcome, ending)?;
    answers.finish()?;
    Ok(outcome)
}

// Writes the last lines, and flushes: what the report amounts to then.
fn end_report<L: LineSink, K: TellsFrames>(
    report: &mut L,
    keeper: &K,
    mut outcome: Outcome,
    ending: Ending,
) -> Result<Outcome, WriteFault>
    ensures wrote { WroteAndFlushed (L.seen report.old) (L.seen report.new) result
        ((K.teller L.spelled).rest (K.kept keeper.now) ++ (K.teller L.spelled).ending ending) }
    ensures outcome { IfOk result (λ o. o ≡ record outcome {
      refused = outcome.refused || (K.teller L.spelled).has_rest (K.kept keeper.now);
      fault = is_fault ending;
    }) }
{
    outcome.refused |= keeper.tell_rest(report)?;
    say_last(&line_of_ending(ending), report)?;
    outcome.fault = ending.is_fault();
    Ok(outcome)
}

fn line_of_ending(ending: Ending) -> Line<'static>
    ensures { row_of result ≡ ending_row ending }
{
    match ending {
        Ending::End => Line::End,
        Ending::Fault(FrameFault::Truncated) => Line::Fault("Truncated"),
        Ending::Fault(FrameFault::Read) => Line::Fault("Read"),
        Ending::Fault(FrameFault::NoMemory) => Line::Fault("NoMemory"),
        Ending::Fault(FrameFault::BadDirection) => Line::Fault("BadDirection"),
    }
}
