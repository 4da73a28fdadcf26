//! Messages of strangers go to a session: what it verifies is the block, and none does harm.
ghost use Rattle.std.specs.Prelude.{IfOk};
ghost use Rattle.chains.specs.Chain.{Chain};
ghost use Rattle.session.specs.Layouts.{SessionSeen};
ghost use Rattle.session.specs.SafeStep.{KeepsKnown};
ghost use Rattle.uses.specs.Strangers.{AreVerdictsOn, AreVerdictsOf, TakesTheTrue, VerifiesTheBlock};

use crate::torrents::{open_torrent, start_session};
use metainfo::laws::place_is_block_place;
use metainfo::{Refusal, Torrent};
use session::{NoMemory, NodeMap, Paged, Session, Verdict};
use std::alloc::Global;
use wire::Message;

/// Takes messages of strangers, in any state of a session, and returns what became of each: after
/// `Ok` each message has a verdict; each block that it does not refuse is the block at its place of
/// every file that fits, or a collision: two different inputs with one SHA-256 digest are given.
pub fn take_messages<N: NodeMap>(
    session: &mut Session<'_, N>,
    messages: &[Message<'_>],
) -> Result<Vec<Verdict>, NoMemory>
    ensures { IfOk result (λ vs. Chain (VerifiesTheBlock session.old.torrent)
        session.old messages.now vs.items session.new) }
{
    session.torrent().recall_sound();
    place_is_block_place();
    session.run(messages)
}

/// The verdicts on messages of strangers, from the bytes of a torrent file on: each block that is
/// verified is the block at that place of every byte list with the length and the root that the
/// bytes state, or two inputs with one SHA-256 digest are named.
pub fn verdicts_on(
    alloc: Global,
    bytes: &[u8],
    messages: &[Message<'_>],
) -> Result<Vec<Verdict>, Refusal>
    ensures { IfOk result (λ vs. AreVerdictsOn bytes.now messages.now vs.items) }
{
    let torrent = open_torrent(alloc, bytes)?;
    verdicts_of(alloc, &torrent, messages)
}

// The verdicts of a new session of a torrent.
fn verdicts_of(
    alloc: Global,
    torrent: &Torrent<'_>,
    messages: &[Message<'_>],
) -> Result<Vec<Verdict>, Refusal>
    ensures { IfOk result (λ vs. AreVerdictsOf torrent.now messages.now vs.items) }
{
    match start_session(alloc, torrent, true) {
        Ok(session) => verdicts_by(session, messages),
        Err(NoMemory) => Err(Refusal::NoMemory),
    }
}

fn verdicts_by(
    mut session: Session<'_, Paged>,
    messages: &[Message<'_>],
) -> Result<Vec<Verdict>, Refusal>
    ensures { IfOk result (λ vs. (end : SessionSeen)
        × Chain (VerifiesTheBlock session.entry.torrent) session.entry messages.now vs.items end) }
{
    match take_messages(&mut session, messages) {
        Ok(verdicts) => Ok(verdicts),
        Err(NoMemory) => Err(Refusal::NoMemory),
    }
}

/// Takes one message of a stranger, in any state of a session: known hashes keep their value; true
/// hashes in a well-formed message, which lead up to a known node, are stored, or `NoMemory`, or a
/// collision; in a piece message with the place and size of whole blocks of one file (at most
/// 263,208 bytes) each block that is true at its place and whose leaf is known is verified, or a
/// collision: two different inputs with one SHA-256 digest are given.
pub fn take_message<N: NodeMap>(session: &mut Session<'_, N>, message: &Message<'_>) -> Verdict
    ensures stay { KeepsKnown session.old session.new }
    ensures true_is_taken { TakesTheTrue session.old message.now result session.new }
{
    session.step(message)
}
