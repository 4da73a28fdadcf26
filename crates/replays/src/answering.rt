//! How the answers of a replay go out, if they are wanted.
ghost use Rattle.std.specs.Prelude.{◌≡◌, ℕ, List, length, Some, ◌≤◌};
ghost use Rattle.benc.specs.Device.{Wrote};
ghost use Rattle.session.specs.Answers.{IsAnswerTo};
ghost use Rattle.replays.specs.Answering.{Flushes, HasFewHashes, IsAnswerFrame, Replies};

use crate::report::Reply;
use benc::{DeviceFault, Sink, WriteFault};
use lines::OutFault;
use session::{Answer, NodeMap, Session};
use wire::{Ask, Message, write};

/// Where answers go: to a sink, or nowhere.
pub(crate) trait Answering {
    ghost use Rattle.std.specs.Prelude.{Option};
    ghost use Rattle.benc.specs.Device.{SinkSeen};

    // What callers see of the sink, if there is one.
    ghost seen: { Self → Option SinkSeen };

    /// Answers what is to be answered. Memory is taken for hashes alone.
    fn answer<N: NodeMap>(&mut self, session: &Session<'_, N>, reply: Reply) -> Result<(), OutFault>
        ensures { Replies session.now reply (seen self.old) (seen self.new) result };

    /// Flushes the sink once, if there is one.
    fn finish(&mut self) -> Result<(), DeviceFault>
        ensures { Flushes (seen self.old) (seen self.new) result };
}

/// Answers are not wanted.
#[derive(Drop)]
pub(crate) struct Unwanted;

impl Answering for Unwanted {
    ghost use Rattle.std.specs.Prelude.{None};

    ghost seen = { λ _. None };

    fn answer<N: NodeMap>(
        &mut self,
        _session: &Session<'_, N>,
        _reply: Reply,
    ) -> Result<(), OutFault> {
        Ok(())
    }

    fn finish(&mut self) -> Result<(), DeviceFault> {
        Ok(())
    }
}

impl<A: Sink> Answering for A {
    ghost seen = { λ s. Some (A.seen s) };

    fn answer<N: NodeMap>(
        &mut self,
        session: &Session<'_, N>,
        reply: Reply,
    ) -> Result<(), OutFault> {
        send_reply(self, session, reply)
    }

    fn finish(&mut self) -> Result<(), DeviceFault> {
        self.flush()
    }
}

// Writes the frame of what is to be answered.
fn send_reply<N: NodeMap, A: Sink>(
    out: &mut A,
    session: &Session<'_, N>,
    reply: Reply,
) -> Result<(), OutFault>
    ensures { Replies session.now reply (Some (A.seen out.old)) (Some (A.seen out.new)) result }
{
    match reply {
        Reply::Hashes(ask) => send_hashes(out, session, ask),
        Reply::Reject(ask) => {
            write(&Message::Reject(ask), out)?;
            Ok(())
        }
        Reply::Nothing => Ok(()),
    }
}

// Writes the frame of the hashes that the session gives.
fn send_hashes<N: NodeMap, A: Sink>(
    out: &mut A,
    session: &Session<'_, N>,
    ask: Ask,
) -> Result<(), OutFault>
    ensures { Replies session.now (Reply.Hashes ask)
        (Some (A.seen out.old)) (Some (A.seen out.new)) result }
{
    session.torrent().recall_sound();
    let Ok(answer) = session.answer(&ask) else {
        return Err(OutFault::NoMemory);
    };
    write_answer(out, ask, &answer)?;
    Ok(())
}

// Writes the frame of an answer.
fn write_answer<A: Sink>(out: &mut A, ask: Ask, answer: &Answer) -> Result<(), WriteFault>
    requires { HasFewHashes answer.now }
    ensures { (bytes : List ℕ) × IsAnswerFrame ask answer.now bytes
        × Wrote (A.seen out.old) (A.seen out.new) result bytes }
{
    match answer {
        Answer::Hashes(hashes) => write(&Message::Hashes { ask, hashes }, out),
        Answer::Reject => write(&Message::Reject(ask), out),
    }
}
