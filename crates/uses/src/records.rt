//! A record of messages goes to a session, and a report comes out.
ghost use Rattle.std.specs.Prelude.{IfOk};
ghost use Rattle.uses.specs.Records.{IsReportOf};

use benc::{Sink, Source, WriteFault};
use checker::{Outcome, replay};
use lines::Nowhere;
use session::{NodeMap, Session};
use std::alloc::Global;

/// Reports what a session makes of a record of either form: after `Ok` a line for each frame that
/// was read, in order, or for each of its blocks, with the verdict of its step, or `bad frame` for
/// a wrong size; last, why it stopped: `end` or a `fault`. Nothing else is printed.
pub fn report_on<N: NodeMap, R: Source, W: Sink>(
    alloc: Global,
    session: &mut Session<'_, N>,
    source: &mut R,
    report: &mut W,
) -> Result<Outcome, WriteFault>
    ensures { IfOk result (λ _. IsReportOf (R.seen source.old) (R.seen source.new) session.old
        session.new (W.seen report.old) (W.seen report.new)) }
{
    replay(alloc, session, source, report, None::<&mut Nowhere>)
}
