//! A session that notes what it asks for, and takes hashes only in answer to an open ask.

ghost use Rattle.std.specs.Prelude.{◌≡◌, ◌<◌, ◌↔◌, IfOk, IfErr, OnOk, OnErr, IsOk, IsTrue, length};
ghost use Rattle.chains.specs.Chain.{Chain};
ghost use Rattle.session.specs.SafeStep.{KeepsKnown, StoresTrueHashes, StoresAnswers};
ghost use Rattle.session.specs.Noted.{IsOpenAsk, IsAnswerStored, IsAnswerRefused, StepIn, StepOut, IsSafeNotedStep, KeepsOpen, with_ask};
ghost use Rattle.session.specs.NotedRounds.{NotedRoundLeavesFewer};
ghost use Rattle.session.specs.Wanted.{WantedClosesOneGap};
ghost use Rattle.session.specs.Rounds.{HasNoMoreGaps};

use crate::running::recall_message_hashes;
use crate::session::SessionOf;
use crate::torrent_holder::HoldsTorrent;
use crate::verdict::Verdict;
use hashtree::{Hash, NoMemory};
use node_maps::NodeMap;
use partial_tree::HashRefusal;
use wire::{Ask, Direction, Message};

impl<T: HoldsTorrent, N: NodeMap> SessionOf<T, N> {
    /// Notes that we sent this request: its ask is open from now on, until hashes answer it. An ask
    /// that is open already changes nothing and takes no memory. Fails only if memory was refused,
    /// and then the session is unchanged.
    pub fn note(&mut self, ask: &Ask) -> Result<(), NoMemory>
        ensures noted { OnOk result (self.new ≡ with_ask self.old ask.now) }
        ensures unchanged { OnErr result (self.new ≡ self.old) }
        ensures open_already { IsOpenAsk self.old ask.now → self.new ≡ self.old }
        ensures no_memory { IsOpenAsk self.old ask.now → IsOk result }
    {
        self.asks.insert(*ask)
    }

    /// Whether an ask is open: a request with these five fields was noted, and no hashes have
    /// answered it since.
    pub fn is_open(&self, ask: &Ask) -> bool
        ensures { IsTrue result ↔ IsOpenAsk self.now ask.now }
    {
        self.asks.contains(ask)
    }

    /// Takes a hashes message that answers an open ask, which is closed by it. Returns how many
    /// places are newly known, those past the file's end counted. Hashes that nobody asked for are
    /// refused before any other test. A refusal closes nothing, and leaves the session unchanged.
    /// The true answer to what [`Session::want`] gives now leaves exactly one gap fewer, unless
    /// memory is refused for it or two inputs with one digest are named.
    pub fn take_answer(&mut self, ask: &Ask, hashes: &[Hash]) -> Result<u64, HashRefusal>
        ensures stored { IfOk result (λ c. IsAnswerStored self.old ask.now hashes.now c self.new) }
        ensures refused { IfErr result (λ r. IsAnswerRefused self.old ask.now hashes.now r
            × (self.new ≡ self.old)) }
        ensures keeps_known { KeepsKnown self.old self.new }
        ensures stores_true_hashes { IsOpenAsk self.old ask.now
            → StoresTrueHashes self.old ask.now hashes.now result }
        ensures stores_answers { IsOpenAsk self.old ask.now
            → StoresAnswers self.old ask.now hashes.now result }
        ensures closes_one_gap { IsOpenAsk self.old ask.now
            → WantedClosesOneGap self.old ask.now hashes.now result self.new }
    {
        if !self.is_open(ask) {
            return Err(HashRefusal::Unasked);
        }
        match self.take_hashes(ask, hashes) {
            Ok(count) => {
                self.asks.remove(ask);
                Ok(count)
            }
            Err(refusal) => Err(refusal),
        }
    }

    /// Takes one message that came in or went out, and returns what it makes of it. What came in is
    /// taken as by `step`, but hashes as by `take_answer`. Of what went out a request is noted, and
    /// all else is only sent. What it verifies is that block of every file with the tree's
    /// length and root, or two inputs with one digest are named. What is known stays known. True
    /// hashes that lead to a known node and whose ask is open are stored, unless memory is refused
    /// or a collision is named; the true block of a known leaf is verified, or a collision is
    /// named. Only our own requests open an ask, and it stays open until its base range is known. A
    /// refusal leaves the session unchanged.
    pub fn step_noted(&mut self, direction: Direction, message: &Message<'_>) -> Verdict
        ensures is_safe { IsSafeNotedStep self.old (direction, message.now) result
            self.new }
    {
        self.recall_closed_trees();
        self.recall_distinct_roots();
        match direction {
            Direction::In => self.take_in(message),
            Direction::Out => self.send(message),
        }
    }

    // Apart from `step_noted`, so that what each step keeps is proved of one verdict.
    fn take_in(&mut self, message: &Message<'_>) -> Verdict
        ensures { StepIn self.old message.now result self.new }
    {
        match *message {
            Message::Hashes { ask, hashes } => match self.take_answer(&ask, hashes) {
                Ok(count) => Verdict::Stored(count),
                Err(refusal) => Verdict::HashRefused(refusal),
            },
            _ => self.step(message),
        }
    }

    fn send(&mut self, message: &Message<'_>) -> Verdict
        ensures { StepOut self.old message.now result self.new }
    {
        match *message {
            Message::Request(ask) => match self.note(&ask) {
                Ok(()) => Verdict::Noted,
                Err(_) => Verdict::HashRefused(HashRefusal::NoMemory),
            },
            _ => Verdict::Sent,
        }
    }

    /// Takes messages that came in or went out, one after the other, each as by `step_noted`, and
    /// returns what it makes of each. What it verifies is that block of every file with the
    /// tree's length and root, or two inputs with one digest are named. What is known stays known;
    /// true blocks and true hashes whose ask is open are taken, whatever came before them, unless
    /// memory is refused or a collision is named. No tree has more gaps afterwards, and an open ask
    /// is still open unless its base range is known. If the messages end with the true answer to
    /// what `want` gave before the first of them, and that ask was noted before its answer, there
    /// are fewer gaps, whatever else the messages hold, unless memory was refused for that answer
    /// or to note it, or two inputs with one digest are named. Room for the verdicts is made first;
    /// if memory is refused for it, the session is unchanged. No messages take no memory.
    pub fn run_noted(
        &mut self,
        messages: &[(Direction, Message<'_>)],
    ) -> Result<Vec<Verdict>, NoMemory>
        ensures is_safe { IfOk result
            (λ vs. Chain IsSafeNotedStep self.old messages.now vs.items self.new) }
        ensures gaps { IfOk result (λ _. HasNoMoreGaps self.old self.new) }
        ensures keeps_open { IfOk result (λ _. KeepsOpen self.old self.new) }
        ensures round { IfOk result
            (λ vs. NotedRoundLeavesFewer self.old messages.now vs.items self.new) }
        ensures unchanged { OnErr result (self.new ≡ self.old) }
        ensures no_memory { OnErr result (0 < length messages.now) }
    {
        self.recall_closed_trees();
        self.recall_distinct_roots();
        let mut verdicts = Vec::with_capacity(self.alloc, messages.len())?;
        'messages: for (direction, message) in messages {
            recall_message_hashes(message);
            verdicts.push_reserved(self.step_noted(*direction, message));
        }
        Ok(verdicts)
    }
}
