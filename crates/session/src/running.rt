//! How a session takes messages, one or many.

ghost use Rattle.std.specs.Prelude.{◌≡◌, ◌<◌, IfOk, OnErr, length};
ghost use Rattle.session.specs.Session.{HasHashes, Step};
ghost use Rattle.session.specs.Rounds.{HasNoMoreGaps, RoundLeavesFewer};
ghost use Rattle.chains.specs.Chain.{Chain};
ghost use Rattle.session.specs.SafeStep.{IsSafeStep};

use crate::session::SessionOf;
use crate::torrent_holder::HoldsTorrent;
use crate::verdict::Verdict;
use hashtree::NoMemory;
use node_maps::NodeMap;
use partial_tree::recall_hashes;
use wire::Message;

impl<T: HoldsTorrent, N: NodeMap> SessionOf<T, N> {
    /// Takes one message, and returns what it makes of it. What it verifies is that block of every
    /// file with the tree's length and root, or two inputs with one digest are named. What is known
    /// stays known. True hashes that lead to a known node are stored, unless memory is refused or a
    /// collision is named; the true block of a known leaf is verified, or a collision is named. The
    /// true answer to what `want` gives now leaves exactly one gap fewer, unless memory is refused
    /// for it or a collision is named. A refusal leaves content and marks as they were.
    pub fn step(&mut self, message: &Message<'_>) -> Verdict
        ensures is_safe { IsSafeStep self.old message.now result self.new }
    {
        self.recall_closed_trees();
        self.recall_distinct_roots();
        self.take(message)
    }

    // Apart from `step`, so that what each step keeps is proved of one verdict.
    fn take(&mut self, message: &Message<'_>) -> Verdict
        ensures { Step self.old message.now result self.new }
    {
        match *message {
            Message::Piece {
                index,
                begin,
                block,
            } => match self.take_blocks(index, begin, block) {
                Ok(blocks) => Verdict::Blocks(blocks),
                Err(refusal) => Verdict::BlockRefused(refusal),
            },
            Message::Request(ask) => {
                if self.can_answer(&ask) {
                    Verdict::Answered
                } else {
                    Verdict::Rejected
                }
            }
            Message::Hashes { ask, hashes } => match self.take_hashes(&ask, hashes) {
                Ok(count) => Verdict::Stored(count),
                Err(refusal) => Verdict::HashRefused(refusal),
            },
            Message::Reject(_) => Verdict::RejectNoted,
            Message::KeepAlive => Verdict::KeepAlive,
            Message::Other { id, .. } => Verdict::Skipped(id),
        }
    }

    /// Takes messages one after the other, each as by `step`, and returns what it makes of each.
    /// What it verifies is that block of every file with the tree's length and root, or two inputs
    /// with one digest are named. What is known stays known; true hashes and true blocks are taken,
    /// whatever came before them, unless memory is refused or a collision is named. No tree has
    /// more gaps afterwards. If the messages end with the true answer to what `want` gave before
    /// the first of them, there are fewer, whatever else they hold, unless memory was refused for
    /// that answer or two inputs with one digest are named. Room for the verdicts is made first; if
    /// memory is refused for it, the session is unchanged. No messages take no memory.
    pub fn run(&mut self, messages: &[Message<'_>]) -> Result<Vec<Verdict>, NoMemory>
        ensures is_safe { IfOk result
            (λ vs. Chain IsSafeStep self.old messages.now vs.items self.new) }
        ensures gaps { IfOk result (λ _. HasNoMoreGaps self.old self.new) }
        ensures round { IfOk result
            (λ vs. RoundLeavesFewer self.old messages.now vs.items self.new) }
        ensures unchanged { OnErr result (self.new ≡ self.old) }
        ensures no_memory { OnErr result (0 < length messages.now) }
    {
        self.recall_closed_trees();
        self.recall_distinct_roots();
        let mut verdicts = Vec::with_capacity(self.alloc, messages.len())?;
        'messages: for message in messages {
            recall_message_hashes(message);
            verdicts.push_reserved(self.step(message));
        }
        Ok(verdicts)
    }
}

/// What the type of a message says: each of its hashes is 32 bytes.
pub fn recall_message_hashes(message: &Message<'_>)
    ensures { HasHashes message.now }
{
    match *message {
        Message::Hashes { hashes, .. } => recall_hashes(hashes),
        _ => {}
    }
}
