//! A frame of a record is given to the session: what is made of it.
ghost use Rattle.std.specs.Prelude.{◌≡◌, [], false, Some};
ghost use Rattle.replays.specs.Answering.{reply_to};
ghost use Rattle.replays.specs.Replay.{IsHandledAs, Meets, StepsBy};
ghost use Rattle.wire.specs.Records.{form_number};
ghost use Rattle.wire.specs.declared.form.Form.{Form as FormOf};

use crate::report::{FrameReport, Reply, Response};
use opening::Torrent;
use padded::without_padding;
use session::{NodeMap, Session, Verdict};
use wire::{Direction, Frame, Message};

/// The frame, without the zeros behind the end of a file if these are cut away.
#[inline(always)]
pub(crate) fn frame_as<'a>(
    torrent: &Torrent<'_>,
    frame: (Direction, Frame<'a>),
    cuts: bool,
) -> (Direction, Frame<'a>)
    ensures { IsHandledAs torrent.now frame.entry cuts result }
{
    let (direction, kept) = frame;
    match kept {
        Frame::Message(message) if cuts => {
            (
                direction,
                Frame::Message(without_padding(torrent, &message)),
            )
        }
        kept => (direction, kept),
    }
}

/// Gives the frame's message to the session: what is made of the frame.
#[inline(always)]
pub(crate) fn respond<N: NodeMap>(
    session: &mut Session<'_, N>,
    form: Option<u8>,
    frame: (Direction, Frame<'_>),
) -> Response
    ensures report { (known : FormOf) → form ≡ Some (form_number known)
        → Meets false known session.old frame.entry result.report [] session.new }
    ensures reply { result.reply ≡ reply_to frame.entry result.report }
{
    let (direction, frame) = frame;
    match frame {
        Frame::Message(message) => {
            let verdict = take_message(session, form, direction, &message);
            Response {
                report: FrameReport::Verdict(verdict),
                reply: Reply::of(direction, &message, &verdict),
            }
        }
        Frame::BadSize { id, len } => Response {
            report: FrameReport::BadFrame { id, len },
            reply: Reply::Nothing,
        },
    }
}

// The session's verdict on a message: in form 2 what we ask for is noted.
#[inline(always)]
fn take_message<N: NodeMap>(
    session: &mut Session<'_, N>,
    form: Option<u8>,
    direction: Direction,
    message: &Message<'_>,
) -> Verdict
    ensures { (known : FormOf) → form ≡ Some (form_number known)
        → StepsBy known session.old (direction, message.now) result session.new }
{
    if form == Some(2) {
        session.step_noted(direction, message)
    } else {
        session.step(message)
    }
}
