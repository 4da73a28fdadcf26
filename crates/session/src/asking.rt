//! What a session asks for, and what it answers.

ghost use Rattle.std.specs.Prelude.{◌≡◌, ◌<◌, ◌↔◌, ℕ, IfOk, IfSome, OnErr, IsTrue, length, Some};
ghost use Rattle.opening.specs.Trees.{IsTreeWithRoot};
ghost use Rattle.partial_tree.specs.Kept.{TreeState};
ghost use Rattle.session.specs.Session.{IsTree, IsAnswered};
ghost use Rattle.node_maps.specs.Known.{look};
ghost use Rattle.partial_tree.specs.TreeRoot.{TreeRoot};
ghost use Rattle.partial_tree.specs.Gaps.{want_of};
ghost use Rattle.hashtree.specs.Tree.{block};
ghost use Rattle.session.specs.Layouts.{IsBlockOf};
ghost use Rattle.session.specs.Answers.{IsAnswerTo};

use crate::session::SessionOf;
use crate::torrent_holder::HoldsTorrent;
use hashtree::{Hash, NoMemory};
use node_maps::NodeMap;
use partial_tree::Answer;
use wire::Ask;

impl<T: HoldsTorrent, N: NodeMap> SessionOf<T, N> {
    /// What to ask for next to learn the leaf of a block: the aligned range of at most 512 leaves
    /// that holds it, with proof up to the root. `None` exactly if the leaf is known. Takes no
    /// memory. Conditions: there are more than `tree` trees, and its files have more than `block`
    /// blocks.
    pub fn want(&self, tree: usize, block: u64) -> Option<Ask>
        requires tree { tree < length self.now.torrent.trees }
        requires block { IsBlockOf self.now.torrent tree block }
        ensures { (root : TreeRoot) × (s : TreeState) × IsTree self.now tree root s
            × (result ≡ want_of root (look s.known) block) }
    {
        self.trees[tree].want(block)
    }

    /// Whether the hashes that are asked for are known.
    pub fn can_answer(&self, ask: &Ask) -> bool
        ensures { IsTrue result ↔ IsAnswered self.now ask.now }
    {
        self.recall_distinct_roots();
        match self.number_of(&ask.root) {
            None => false,
            Some(number) => self.trees[number].can_answer(ask),
        }
    }

    /// What the session answers to a hash request: the hashes of the base range, pads among them,
    /// and then the uncles that the range itself does not give, the one nearest the root last; or a
    /// reject, exactly if `can_answer` is false. Takes memory for the hashes alone, and fails only
    /// if that is refused.
    pub fn answer(&self, ask: &Ask) -> Result<Answer, NoMemory>
        ensures answer { IfOk result (IsAnswerTo self.now ask.now) }
        ensures no_memory { OnErr result (IsAnswered self.now ask.now) }
    {
        self.recall_distinct_roots();
        match self.number_of(&ask.root) {
            None => Ok(Answer::Reject),
            Some(number) => self.trees[number].answer(ask),
        }
    }

    // The number of the tree with a root.
    pub(crate) fn number_of(&self, root: &Hash) -> Option<usize>
        ensures found { IfSome result (IsTreeWithRoot self.now.torrent.trees root.now) }
        ensures within { IfSome result (λ n. n < length self.now.torrent.trees) }
        ensures only { (n : ℕ) → IsTreeWithRoot self.now.torrent.trees root.now n
            → result ≡ Some n }
    {
        self.lent_torrent().tree_with_root(root)
    }
}
