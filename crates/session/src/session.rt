//! A session of a torrent: what is known and marked of each of its trees.
//!
//! What is known of a tree is always *closed*: each known place stands with its sibling and its
//! parent, up to the root (`IsClosed` in `partial_tree`, with a picture in its `tree.rt`). That is
//! why a verified block is the block: `IsFileBlock` in `specs/Session.antt` says what is promised,
//! and `block_or_collision` in `partial_tree`'s `proofs/Headline.antt` proves it.

ghost use Rattle.std.specs.Prelude.{◌≡◌, ◌<◌, ◌≤◌, IfOk, OnErr, length, slice_get, Some};
ghost use Rattle.std.specs.FinMap as finite;
ghost use Rattle.std.specs.FinSet as set;
ghost use Rattle.partial_tree.specs.Kept.{TreeState};
ghost use Rattle.session.specs.Session.{HasClosedTrees, HasDistinctRoots};
ghost use Rattle.session.specs.Fresh.{IsFresh};

use crate::open_asks::OpenAsks;
use crate::planting::planted_all;
use crate::torrent_holder::{HoldsTorrent, OwnTorrent};
use hashtree::NoMemory;
use node_maps::NodeMap;
use opening::Torrent;
use partial_tree::Tree;
use std::alloc::Global;
use std::marker::Model;

/// What is known and marked of the trees of a torrent. Each place that is known stands with its
/// sibling and its parent, up to the tree's root, whatever messages came. The torrent is borrowed
/// ([`Session`]), or the session's own ([`OwnedSession`]): contracts see both alike.
#[derive(Drop)]
pub struct SessionOf<T: HoldsTorrent, N: NodeMap> {
    pub(crate) alloc: Global,
    pub(crate) torrent: T,
    pub(crate) trees: Vec<Tree<N>>,
    pub(crate) asks: OpenAsks,
}

/// A session that borrows its torrent.
pub type Session<'t, N> = SessionOf<&'t Torrent<'t>, N>;

/// A session that owns its torrent, and borrows only the bytes that the torrent was read from. So
/// it can be a field, lie in a collection, or stand behind a handle of C.
pub type OwnedSession<N> = SessionOf<OwnTorrent, N>;

impl<T: HoldsTorrent, N: NodeMap> Model for SessionOf<T, N> {
    ghost use Rattle.session.specs.Layouts.{SessionSeen, seen, AreKept};
    ghost use Rattle.session.specs.Codes.{session_code};

    ghost Value = { SessionSeen };

    ghost coded = { session_code };

    ghost view = { λ s. seen (T.described s.torrent) s.asks s.trees.items };

    ghost invariant = { λ s. AreKept (T.described s.torrent) s.trees.items };
}

impl<'t, N: NodeMap> Session<'t, N> {
    /// A session that knows the root of each tree of the torrent. With layers it also knows what
    /// lies from each piece layer up, the pads past a file's end among them; a file that is no
    /// longer than a piece has no piece layer. Nothing is marked, and no ask is open. Fails only if
    /// memory was refused. A torrent without trees, whose files are all empty, takes none.
    pub fn new(
        alloc: Global,
        torrent: &'t Torrent<'t>,
        with_layers: bool,
    ) -> Result<Session<'t, N>, NoMemory>
        ensures fresh { IfOk result (IsFresh torrent.now with_layers) }
        ensures no_memory { OnErr result (0 < length torrent.now.trees) }
    {
        SessionOf::start(alloc, torrent, with_layers)
    }

    /// The torrent.
    pub fn torrent(&self) -> &'t Torrent<'t>
        ensures { result.now ≡ self.now.torrent }
    {
        self.torrent
    }
}

impl<N: NodeMap> OwnedSession<N> {
    /// As [`Session::new`], of a torrent that the session owns from then on. If memory is refused,
    /// the torrent is dropped.
    pub fn new(
        alloc: Global,
        torrent: Torrent<'static>,
        with_layers: bool,
    ) -> Result<OwnedSession<N>, NoMemory>
        ensures fresh { IfOk result (IsFresh torrent.entry with_layers) }
        ensures no_memory { OnErr result (0 < length torrent.entry.trees) }
    {
        SessionOf::start(alloc, OwnTorrent { torrent }, with_layers)
    }

    /// The torrent.
    pub fn torrent(&self) -> &Torrent<'static>
        ensures { result.now ≡ self.now.torrent }
    {
        &self.torrent.torrent
    }
}

impl<T: HoldsTorrent, N: NodeMap> SessionOf<T, N> {
    // As `new`, whatever holds the torrent.
    fn start(alloc: Global, torrent: T, with_layers: bool) -> Result<SessionOf<T, N>, NoMemory>
        ensures fresh { IfOk result (IsFresh (T.described torrent) with_layers) }
        ensures no_memory { OnErr result (0 < length (T.described torrent).trees) }
    {
        let trees = planted_all(alloc, torrent.lend(), with_layers)?;
        Ok(SessionOf {
            alloc,
            torrent,
            trees,
            asks: OpenAsks::new(alloc),
        })
    }

    /// The torrent, for as long as the session is borrowed.
    pub fn lent_torrent(&self) -> &Torrent<'_>
        ensures { result.now ≡ self.now.torrent }
    {
        self.torrent.lend()
    }

    /// What holds of every session: each known place stands with its sibling and its parent, and
    /// each marked leaf is known.
    pub fn recall_closed_trees(&self)
        ensures { HasClosedTrees self.now }
    {
        // To borrow the field hands its invariant to the prover.
        let _ = &self.trees;
    }

    /// What holds of every session: no two of its trees have one root.
    pub fn recall_distinct_roots(&self)
        ensures { HasDistinctRoots self.now }
    {
        self.torrent.lend().recall_sound();
    }

    /// How many places of a tree are known. Condition: there are more than `tree` trees.
    pub fn known(&self, tree: usize) -> u64
        requires { tree < length self.now.torrent.trees }
        ensures { (s : TreeState) × (slice_get self.now.trees tree ≡ Some s)
            × (result ≡ finite.len s.known) }
    {
        self.trees[tree].known()
    }

    /// How many pages keep what is known of a tree: as many as that takes, and no more than places
    /// are known. So a refusal leaves them as they were. Takes no memory.
    /// Condition: there are more than `tree` trees.
    pub fn pages(&self, tree: usize) -> u64
        requires { tree < length self.now.torrent.trees }
        ensures { (s : TreeState) × (slice_get self.now.trees tree ≡ Some s)
            × (result ≡ N.needed s.known) × (result ≤ finite.len s.known) }
    {
        self.trees[tree].pages()
    }

    /// How many leaves of a tree are marked. Condition: there are more than `tree` trees.
    pub fn marked(&self, tree: usize) -> u64
        requires { tree < length self.now.torrent.trees }
        ensures { (s : TreeState) × (slice_get self.now.trees tree ≡ Some s)
            × (result ≡ set.len s.marked) }
    {
        self.trees[tree].marked()
    }

    /// Whether the leaf of a block of a tree is marked. Takes no memory. Condition: there are more
    /// than `tree` trees.
    pub fn is_marked(&self, tree: usize, block: u64) -> bool
        requires { tree < length self.now.torrent.trees }
        ensures { (s : TreeState) × (slice_get self.now.trees tree ≡ Some s)
            × (result ≡ set.contains s.marked block) }
    {
        self.trees[tree].is_marked(block)
    }
}
