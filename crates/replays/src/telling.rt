//! How what is made of a frame is told, in lines, and what is kept beside the session for that.
ghost use Rattle.replays.specs.Outcome.{is_refusal, is_no_memory};
ghost use Rattle.replays.specs.TellingOf.{TellsFrame, TellsRest};

use crate::lines_of_frame::write_frame;
use crate::report::{Outcome, Reported};
use benc::DeviceFault;
use lines::LineSink;
use session::{NodeMap, Session};

/// Tells frames: writes the lines of each, once the session has made its step for it.
pub(crate) trait TellsFrames {
    ghost use Rattle.std.specs.Prelude.{◌≡◌};
    ghost use Rattle.lines.specs.Rows.{Spelling};
    ghost use Rattle.replays.specs.ReplayRows.{ending_row};
    ghost use Rattle.replays.specs.Telling.{Teller};
    ghost use Rattle.replays.specs.declared.report.Ending.{Ending as EndingSeen};

    // What is kept beside the session, what is told of a frame, and how, by a spelling of lines.
    ghost Kept: { Type 0 };

    ghost Told: { Type 0 };

    ghost kept: { Self → Self.Kept };

    ghost teller: { Spelling → Teller Self.Kept Self.Told };

    /// Writes the lines of a frame, for which the session's step gave its report, and notes what
    /// they amount to.
    fn tell<N: NodeMap, L: LineSink>(
        &mut self,
        session: &mut Session<'_, N>,
        out: &mut L,
        met: Reported<'_>,
        outcome: &mut Outcome,
    ) -> Result<(), DeviceFault>
        ensures { TellsFrame (Self.teller L.spelled) met.entry.number met.entry.frame
            met.entry.report.now
            (session.old, Self.kept self.old) (session.new, Self.kept self.new)
            (L.seen out.old) (L.seen out.new) outcome.old outcome.new result };

    /// Writes the lines of what is kept at the end, and answers whether there is any.
    fn tell_rest<L: LineSink>(&self, out: &mut L) -> Result<bool, DeviceFault>
        ensures { TellsRest (Self.teller L.spelled) (Self.kept self.now) (L.seen out.old)
            (L.seen out.new) result };

    // The last line is that of the table.
    ghost ends: { (s : Spelling) (e : EndingSeen) → (teller s).ending e ≡ s (ending_row e) };
}

/// Nothing is kept, and the session's report is told.
#[derive(Drop)]
pub(crate) struct Plain;

impl TellsFrames for Plain {
    ghost use Rattle.std.specs.Prelude.{refl};
    ghost use Rattle.replays.specs.Telling.{plain_as};
    ghost use Rattle.replays.specs.declared.report.FrameReport.{FrameReport as ReportSeen};

    ghost Kept = { Unit {0} };

    ghost Told = { ReportSeen };

    ghost kept = { λ _. tt };

    ghost teller = { plain_as };

    fn tell<N: NodeMap, L: LineSink>(
        &mut self,
        _session: &mut Session<'_, N>,
        out: &mut L,
        met: Reported<'_>,
        outcome: &mut Outcome,
    ) -> Result<(), DeviceFault> {
        outcome.note(met.report);
        write_frame(out, met.number, met.report)
    }

    fn tell_rest<L: LineSink>(&self, _out: &mut L) -> Result<bool, DeviceFault> {
        Ok(false)
    }

    ghost ends = { λ s e. refl };
}
