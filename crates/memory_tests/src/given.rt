//! What a session is given: the messages of a record, each by one call.
use crate::again::new_again;
use crate::keeping::Directed;
use opening::Torrent;
use session::{HashRefusal, NoMemory, NodeMap, Session, Verdict};
use std::alloc::Global;
use std::io;
use wire::{Direction, Hash, Message};

/// The verdict on a message for which memory was refused.
pub(crate) const OUT_OF_MEMORY: Verdict = Verdict::HashRefused(HashRefusal::NoMemory);

/// The call that takes a message.
#[derive(Clone, Copy)]
pub(crate) enum Call {
    /// `step`.
    Step,
    /// For hashes `fill` of a layer of the first tree, and `step` for all else.
    Fill,
    /// `step_noted`, in the direction that the record gives.
    Noted,
}

impl Call {
    /// The call of this name, or the one that takes the messages of a run of this name.
    pub(crate) fn of(name: &str) -> Call {
        match name {
            "fill" => Call::Fill,
            "step_noted" | "run_noted" => Call::Noted,
            _ => Call::Step,
        }
    }

    /// The call's name, for a message of this direction.
    pub(crate) fn name(self, direction: Direction) -> &'static str {
        match (self, direction) {
            (Call::Step, _) => "step",
            (Call::Fill, _) => "fill",
            (Call::Noted, Direction::In) => "take_answer",
            (Call::Noted, Direction::Out) => "note",
        }
    }

    /// Takes a message.
    pub(crate) fn take<N: NodeMap>(
        self,
        session: &mut Session<'_, N>,
        (direction, message): &Directed<'_>,
    ) -> Verdict {
        match (self, message) {
            (Call::Noted, _) => session.step_noted(*direction, message),
            (Call::Fill, Message::Hashes { ask, hashes }) => fill(session, ask.base, hashes),
            _ => session.step(message),
        }
    }
}

fn fill<N: NodeMap>(session: &mut Session<'_, N>, layer: u32, hashes: &[Hash]) -> Verdict {
    if session.torrent().trees().is_empty() {
        return Verdict::HashRefused(HashRefusal::UnknownRoot);
    }
    match session.fill(0, layer, hashes) {
        Ok(count) => Verdict::Stored(count),
        Err(refusal) => Verdict::HashRefused(refusal),
    }
}

/// Messages for a session of a torrent.
#[derive(Drop)]
pub(crate) struct Given<'g> {
    /// The torrent.
    pub(crate) torrent: &'g Torrent<'g>,
    /// Whether a new session knows the piece layers.
    pub(crate) with_layers: bool,
    /// The call that takes each message.
    pub(crate) call: Call,
    /// The messages.
    pub(crate) messages: Vec<Directed<'g>>,
}

impl<'g> Given<'g> {
    /// These messages, for sessions of a torrent.
    pub(crate) fn new(
        torrent: &'g Torrent<'g>,
        with_layers: bool,
        call: Call,
        messages: Vec<Directed<'g>>,
    ) -> Given<'g> {
        Given {
            torrent,
            with_layers,
            call,
            messages,
        }
    }

    /// No messages, for a session that knows the roots alone.
    pub(crate) fn nothing(alloc: Global, torrent: &'g Torrent<'g>) -> Given<'g> {
        Given {
            torrent,
            with_layers: false,
            call: Call::Step,
            messages: Vec::new(alloc),
        }
    }

    /// A new session.
    pub(crate) fn session<N: NodeMap>(&self, rt: &HostRuntime) -> io::Result<Session<'g, N>> {
        new_again(rt, self.torrent, self.with_layers)
    }

    /// A session that took this many of the messages, and no others.
    pub(crate) fn session_after<N: NodeMap>(
        &self,
        alloc: Global,
        count: usize,
    ) -> Result<Session<'g, N>, NoMemory> {
        let mut session = Session::new(alloc, self.torrent, self.with_layers)?;
        self.take_first(&mut session, count);
        Ok(session)
    }

    fn take_first<N: NodeMap>(&self, session: &mut Session<'_, N>, count: usize) {
        for message in self.messages.iter().take(count) {
            let _ = self.call.take(session, message);
        }
    }
}
