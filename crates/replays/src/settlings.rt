//! How it is told what became of blocks that were held.
ghost use Rattle.std.specs.Prelude.{◌≡◌, ◌<◌, IfSome, IfNone, length};
ghost use Rattle.holdings.specs.Next.{AreUnsettled};
ghost use Rattle.replays.specs.ByPieces.{SaysSettled};
ghost use Rattle.replays.specs.Held.{IsSettled, work};
ghost use Rattle.replays.specs.SaidLines.{IsOfEntry};

use crate::report::Outcome;
use crate::said::{Said, say};
use benc::DeviceFault;
use holdings::{Holdings, Pieces};
use lines::LineSink;
use session::{NodeMap, Session};

/// Pieces of a tree of which something may be settled, and the file of which it is told.
#[derive(Clone, Copy)]
pub(crate) struct Touched {
    pub(crate) tree: usize,
    pub(crate) file: usize,
    pub(crate) pieces: Pieces,
}

/// Settles all that can be settled of these pieces, in the order of their numbers, and tells it.
pub(crate) fn tell_settled<N: NodeMap, L: LineSink>(
    held: &mut Holdings,
    session: &mut Session<'_, N>,
    touched: Touched,
    out: &mut L,
    number: u64,
    outcome: &mut Outcome,
) -> Result<(), DeviceFault>
    requires there { touched.tree < length session.old.torrent.trees }
    requires tree { touched.pieces.tree ≡ touched.tree }
    ensures { SaysSettled touched.file session.old held.old touched.pieces session.new held.new
        L.spelled number (L.seen out.old) (L.seen out.new) outcome.old outcome.new result }
{
    let _few = session.blocks(touched.tree);
    let mut pieces = touched.pieces;
    'settlings: while let Some(said) = settle_one(held, session, &mut pieces, touched.file) {
        match say(out, number, &said, outcome) {
            Ok(()) => {}
            Err(fault) => return Err(fault),
        }
    }
    Ok(())
}

// Settles what can be settled first of these pieces: what is told of it.
fn settle_one<N: NodeMap>(
    held: &mut Holdings,
    session: &mut Session<'_, N>,
    pieces: &mut Pieces,
    file: usize,
) -> Option<Said>
    requires { pieces.old.tree < length session.old.torrent.trees }
    ensures settled { IfSome result (λ s. IsSettled file
        (work session.old held.old pieces.old) s (work session.new held.new pieces.new)) }
    ensures place { IfSome result IsOfEntry }
    ensures done { IfNone result
        (AreUnsettled session.old held.old pieces.old pieces.old.end) }
    ensures same_session { IfNone result (session.new ≡ session.old) }
    ensures same_held { IfNone result (held.new ≡ held.old) }
{
    match held.settle_next(session, pieces) {
        Ok(Some(settled)) => Some(Said::Settling { file, settled }),
        Ok(None) => None,
        Err(_) => Some(Said::Lacking),
    }
}
