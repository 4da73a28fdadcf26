//! How a session takes hashes: those of a message, a whole layer, a whole tree.

ghost use Rattle.std.specs.Prelude.{◌≡◌, ◌<◌, IfOk, IfErr, length, slice_get, Some};
ghost use Rattle.opening.specs.Description.{TreeEntry};
ghost use Rattle.partial_tree.specs.declared.refusal.HashRefusal.TheVariants.{Mismatch};
ghost use Rattle.session.specs.Session.{IsStored, IsHashRefused, IsFilled, IsFillRefused};
ghost use Rattle.session.specs.Wanted.{WantedClosesOneGap};
ghost use Rattle.session.specs.SafeStep.{KeepsKnown, StoresTrueHashes, StoresAnswers};

use crate::session::SessionOf;
use crate::torrent_holder::HoldsTorrent;
use hashtree::Hash;
use node_maps::NodeMap;
use partial_tree::{GrownTree, HashRefusal, recall_hashes};
use wire::Ask;

impl<T: HoldsTorrent, N: NodeMap> SessionOf<T, N> {
    /// Takes a hashes message. Returns how many places are newly known, those past the file's end
    /// counted. A refusal leaves content and marks as they were; it is out of memory only if a
    /// place is new, and then room that was made for places may stay. What is known stays known,
    /// and true hashes that lead to a known node are stored, whatever came before. The true answer
    /// to what [`Session::want`] gives now leaves exactly one gap fewer, unless memory is refused
    /// for it or two inputs with one digest are named.
    pub fn take_hashes(&mut self, ask: &Ask, hashes: &[Hash]) -> Result<u64, HashRefusal>
        ensures stored { IfOk result (λ c. IsStored self.old ask.now hashes.now c self.new) }
        ensures refused { IfErr result (λ r. IsHashRefused self.old ask.now hashes.now r
            × (self.new ≡ self.old)) }
        ensures keeps_known { KeepsKnown self.old self.new }
        ensures stores_true_hashes { StoresTrueHashes self.old ask.now hashes.now result }
        ensures stores_answers { StoresAnswers self.old ask.now hashes.now result }
        ensures closes_one_gap { WantedClosesOneGap self.old ask.now hashes.now result self.new }
    {
        self.recall_closed_trees();
        self.recall_distinct_roots();
        self.join_hashes(ask, hashes)
    }

    // Apart from `take_hashes`, so that what follows of closed trees is proved of one result.
    fn join_hashes(&mut self, ask: &Ask, hashes: &[Hash]) -> Result<u64, HashRefusal>
        ensures stored { IfOk result (λ c. IsStored self.old ask.now hashes.now c self.new) }
        ensures refused { IfErr result (λ r. IsHashRefused self.old ask.now hashes.now r
            × (self.new ≡ self.old)) }
    {
        recall_hashes(hashes);
        match self.number_of(&ask.root) {
            None => Err(HashRefusal::UnknownRoot),
            Some(number) => self.trees[number].take(ask, hashes),
        }
    }

    /// Takes a whole layer of a tree, given without the pads at its end. Returns how many places
    /// are newly known. What is known stays known. A refusal leaves content and marks as they were;
    /// it is out of memory only if a place is new. Condition: there are more than `tree` trees.
    pub fn fill(&mut self, tree: usize, layer: u32, hashes: &[Hash]) -> Result<u64, HashRefusal>
        requires { tree < length self.old.torrent.trees }
        ensures filled { IfOk result (λ c. IsFilled self.old tree layer hashes.now c self.new) }
        ensures refused { IfErr result (λ r. IsFillRefused self.old tree layer hashes.now r
            × (self.new ≡ self.old)) }
        ensures keeps_known { KeepsKnown self.old self.new }
    {
        self.join_layer(tree, layer, hashes)
    }

    // Apart from `fill`, so that what follows of a layer is proved of one result.
    fn join_layer(&mut self, tree: usize, layer: u32, hashes: &[Hash]) -> Result<u64, HashRefusal>
        requires { tree < length self.old.torrent.trees }
        ensures filled { IfOk result (λ c. IsFilled self.old tree layer hashes.now c self.new) }
        ensures refused { IfErr result (λ r. IsFillRefused self.old tree layer hashes.now r
            × (self.new ≡ self.old)) }
    {
        recall_hashes(hashes);
        self.trees[tree].fill(layer, hashes)
    }

    /// Takes over a whole tree that grew from its leaves. Returns how many places are newly known:
    /// it does what [`Session::fill`] with these leaves would do, but the hashes stay where they
    /// are. It takes no memory, and refuses only a tree that differs from what is known; content
    /// and marks then stay. Conditions: there are more than `tree` trees, and that one has files of
    /// the length for which the other one grew.
    pub fn adopt(&mut self, tree: usize, grown: GrownTree<N>) -> Result<u64, HashRefusal>
        requires inside { tree < length self.old.torrent.trees }
        requires length { (e : TreeEntry) → slice_get self.old.torrent.trees tree ≡ Some e
            → grown.length ≡ e.length }
        ensures adopted { IfOk result (λ c. IsFilled self.old tree 0 grown.leaves c self.new) }
        ensures refused { IfErr result (λ r. IsFillRefused self.old tree 0 grown.leaves r
            × (self.new ≡ self.old)) }
        ensures only_mismatch { IfErr result (λ r. r ≡ Mismatch) }
        ensures keeps_known { KeepsKnown self.old self.new }
    {
        self.take_over(tree, grown)
    }

    // Apart from `adopt`, so that what follows of a tree is proved of one result.
    fn take_over(&mut self, tree: usize, grown: GrownTree<N>) -> Result<u64, HashRefusal>
        requires inside { tree < length self.old.torrent.trees }
        requires length { (e : TreeEntry) → slice_get self.old.torrent.trees tree ≡ Some e
            → grown.length ≡ e.length }
        ensures adopted { IfOk result (λ c. IsFilled self.old tree 0 grown.leaves c self.new) }
        ensures refused { IfErr result (λ r. IsFillRefused self.old tree 0 grown.leaves r
            × (self.new ≡ self.old)) }
        ensures only_mismatch { IfErr result (λ r. r ≡ Mismatch) }
    {
        self.trees[tree].adopt(grown)
    }
}
