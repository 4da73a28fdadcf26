//! How a session takes the blocks of a piece message.

ghost use Rattle.std.specs.Prelude.{◌≡◌, ◌<◌, ◌≤◌, IfOk, IfErr, IfSome, length, ◌*◌, Some};
ghost use Rattle.sha2.specs.Sha256.{sha256};
ghost use Rattle.session.specs.Session.{IsVerified, IsBlockRefused, IsBlock, IsMarkedBlock, IsUnmarkedBlock, BlockStep, AreTaken, AreRefused, AreBlocks};
ghost use Rattle.hashtree.specs.Tree.{block};
ghost use Rattle.session.specs.Blocks.{cuts, most_blocks};
ghost use Rattle.partial_tree.specs.BlockDigests.{AreDigests};
ghost use Rattle.session.specs.Layouts.{HasBlock, HasRun};
ghost use Rattle.session.specs.BlockTree.{HasBlockAt, HasBlockTree};
ghost use Rattle.opening.specs.Places.{place_of};
ghost use Rattle.chains.specs.Chain.{Chain};
ghost use Rattle.session.specs.SafeStep.{KeepsKnown, VerifiesTrueBlock, VerifiesTrueBlocks};

use crate::session::SessionOf;
use crate::torrent_holder::HoldsTorrent;
use crate::verdict::Blocks;
use hashtree::Hash;
use node_maps::NodeMap;
use partial_tree::{BlockDigests, BlockRefusal, block_of};

impl<T: HoldsTorrent, N: NodeMap> SessionOf<T, N> {
    /// Takes a block of a piece message, marks its leaf, and returns the file and the block, both
    /// numbered from 0. What it verifies is that block of every file that has the tree's length and
    /// root, or two inputs with one digest are named. A repeat is verified again; a refusal leaves
    /// the session as it was. Takes no memory.
    pub fn take_block(
        &mut self,
        index: u32,
        begin: u32,
        block: &[u8],
    ) -> Result<(usize, u64), BlockRefusal>
        ensures verified { IfOk result
            (λ p. IsVerified self.old index begin block.now p.0 p.1 self.new) }
        ensures refused { IfErr result (λ r. IsBlockRefused self.old index begin block.now r
            × (self.new ≡ self.old)) }
        ensures verified_is_the_block { IfOk result
            (λ p. IsBlock self.old index begin block.now p.0 p.1) }
        ensures keeps_known { KeepsKnown self.old self.new }
        ensures verifies_true_block { VerifiesTrueBlock self.old index begin block.now result }
    {
        self.recall_closed_trees();
        self.mark_block(index, begin, block)
    }

    // Apart from `take_block`, so that what follows of closed trees is proved of one result.
    fn mark_block(
        &mut self,
        index: u32,
        begin: u32,
        block: &[u8],
    ) -> Result<(usize, u64), BlockRefusal>
        ensures verified { IfOk result
            (λ p. IsVerified self.old index begin block.now p.0 p.1 self.new) }
        ensures refused { IfErr result (λ r. IsBlockRefused self.old index begin block.now r
            × (self.new ≡ self.old)) }
    {
        let Some((file, number)) = self.block_at(index, begin) else {
            return Err(BlockRefusal::BadPlace);
        };
        match self.mark_in_file(file, number, block, None) {
            Ok(()) => Ok((file, number)),
            Err(refusal) => Err(refusal),
        }
    }

    /// Takes the blocks of a piece message, which may be several: consecutive blocks of one file.
    /// Each is marked if its digest is its known leaf, or refused by itself. The whole message is
    /// refused if no block begins at its place, or if its bytes are no blocks of the file from
    /// there on: at least one, and 263,208 bytes at most; then the session stays as it was. What it
    /// verifies is that block of every file that has the tree's length and root, or two inputs
    /// with one digest are named. Takes no memory.
    pub fn take_blocks(
        &mut self,
        index: u32,
        begin: u32,
        bytes: &[u8],
    ) -> Result<Blocks, BlockRefusal>
        ensures taken { IfOk result (λ v. AreTaken self.old index begin bytes.now v self.new) }
        ensures refused { IfErr result (λ r. AreRefused self.old index begin bytes.now r
            × (self.new ≡ self.old)) }
        ensures verified_are_the_blocks { IfOk result (AreBlocks self.old index begin bytes.now) }
        ensures keeps_known { KeepsKnown self.old self.new }
        ensures verifies_true_blocks { IfOk result (VerifiesTrueBlocks self.old bytes.now) }
    {
        self.recall_closed_trees();
        self.mark_blocks(index, begin, bytes)
    }

    // Apart from `take_blocks`, so that what follows of closed trees is proved of one result.
    fn mark_blocks(&mut self, index: u32, begin: u32, bytes: &[u8]) -> Result<Blocks, BlockRefusal>
        ensures taken { IfOk result (λ v. AreTaken self.old index begin bytes.now v self.new) }
        ensures refused { IfErr result (λ r. AreRefused self.old index begin bytes.now r
            × (self.new ≡ self.old)) }
    {
        let Some((file, first)) = self.block_at(index, begin) else {
            return Err(BlockRefusal::BadPlace);
        };
        match self
            .lent_torrent()
            .block_run(file, first, bytes.len() as u64)
        {
            None => Err(BlockRefusal::BadSize),
            Some(count) => Ok(self.mark_run(file, first, bytes, count)),
        }
    }

    // Takes bytes that are `count` blocks of a file, from block `first` on.
    fn mark_run(&mut self, file: usize, first: u64, bytes: &[u8], count: u64) -> Blocks
        requires { HasRun self.old.torrent file first (length bytes.now) count }
        ensures file { result.file ≡ file }
        ensures first { result.first ≡ first }
        ensures count { length result.refusals ≡ count }
        ensures each { Chain (BlockStep file) self.old (cuts first bytes.now count)
            result.refusals self.new }
    {
        self.torrent.lend().recall_sound();
        let mut blocks = Blocks::new(file, first);
        let mut digests = BlockDigests::new();
        'numbers: for number in 0..count {
            let block = first + number;
            self.hash_ahead(file, block, bytes, number, &mut digests);
            let digest = digests.get(number);
            let marked = self.mark_in_file(file, block, block_of(bytes, number), digest);
            blocks.push(marked.err());
        }
        blocks
    }

    // Hashes eight blocks of a message side by side, from block `number` on, which is block `block`
    // of the file: if they are whole, their leaves are known, and the first is not hashed yet.
    fn hash_ahead(
        &self,
        file: usize,
        block: u64,
        bytes: &[u8],
        number: u64,
        digests: &mut BlockDigests,
    )
        requires block { HasBlock self.now.torrent file block }
        requires few { number < most_blocks }
        requires known { AreDigests digests.old bytes.now }
        ensures { AreDigests digests.new bytes.now }
    {
        if digests.can_fill(bytes, number) && self.knows_eight(file, block) {
            digests.fill(bytes, number);
        }
    }

    // Whether the leaves of eight blocks of a file are known, from one on.
    fn knows_eight(&self, file: usize, block: u64) -> bool
        requires { HasBlock self.now.torrent file block }
    {
        let tree = self.tree_of_block(file, block);
        self.trees[tree].knows_leaves(block, 8)
    }

    // The file and the block of it that begin at the place of a message.
    pub(crate) fn block_at(&self, index: u32, begin: u32) -> Option<(usize, u64)>
        ensures value { result ≡ place_of self.now.torrent index begin }
        ensures found { IfSome result (λ p. HasBlockAt self.now index begin p.0 p.1) }
    {
        let torrent = self.torrent.lend();
        torrent.recall_sound();
        torrent.place(index, begin)
    }

    // The number of the tree that a block of a file is in.
    pub(crate) fn tree_of_block(&self, file: usize, block: u64) -> usize
        requires { HasBlock self.now.torrent file block }
        ensures { HasBlockTree self.now file block result }
    {
        let torrent = self.torrent.lend();
        torrent.recall_sound();
        torrent.tree_of(file).unwrap()
    }

    // Marks a block of a file if its digest, which may be given, is its known leaf.
    fn mark_in_file(
        &mut self,
        file: usize,
        block: u64,
        bytes: &[u8],
        digest: Option<Hash>,
    ) -> Result<(), BlockRefusal>
        requires block { HasBlock self.old.torrent file block }
        requires digest { IfSome digest (λ d. d ≡ sha256 bytes.now) }
        ensures marked { IfOk result (λ _. IsMarkedBlock self.old file block bytes.now self.new) }
        ensures refused { IfErr result (λ r. IsUnmarkedBlock self.old file block bytes.now r
            × (self.new ≡ self.old)) }
    {
        let tree = self.tree_of_block(file, block);
        self.trees[tree].take_hashed(block, bytes, digest)
    }
}
