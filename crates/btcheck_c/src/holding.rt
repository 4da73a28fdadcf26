//! How the blocks of a message are held beside a session, and settled.

ghost use Rattle.std.specs.Prelude.{◌≡◌, ◌≢◌, ◌<◌, ◌≤◌, ◌+◌, ◌*◌, ◌^◌, length, slice_get, Some, Option};
ghost use Rattle.partial_tree.specs.declared.refusal.BlockRefusal.{BlockRefusal as Why};
ghost use Rattle.holdings.specs.Holding.{IsTreeBlock};
ghost use Rattle.btcheck_c.specs.Held.{AreBlocksPlaced, ArePiecesOfRun, EntryHeld, HeldBlocks, HoldsBlocks, SettlesHeld};

use crate::held::{Cursor, Held};
use c_layouts::held_info::{HeldInfo, RunInfo, lay_out_unheld, write_hold, write_settled};
use c_layouts::status::{DONE, NO_MEMORY, NO_SUCH, NOTHING, refused_block};
use holdings::{Holdings, Pieces};
use node_maps::Paged;
use partial_tree::{BlockRefusal, block_of};
use session::{Blocks, OwnedSession};

// The blocks of a message as a session took them, the tree that they are in, and their bytes.
#[derive(Clone, Copy)]
struct BlocksInTree<'b> {
    tree: usize,
    blocks: &'b Blocks,
    bytes: &'b [u8],
}

/// Takes the blocks of a message, and holds those that cannot be proved yet.
pub(crate) fn hold_blocks(
    session: &mut OwnedSession<Paged>,
    held: &mut Held,
    index: u32,
    begin: u32,
    bytes: &[u8],
    out: &mut HeldInfo,
) -> u32
    ensures done { HoldsBlocks index begin bytes.now out.new session.old held.old result
        session.new held.new }
    ensures unwritten { result ≢ 0 → out.new ≡ out.old }
{
    match session.take_blocks(index, begin, bytes) {
        Err(refusal) => refused_block(refusal),
        Ok(blocks) => {
            *out = hold_unproved(session, held, &blocks, bytes);
            DONE
        }
    }
}

// Holds the blocks of a message that cannot be proved yet. Their pieces are looked at then.
fn hold_unproved(
    session: &OwnedSession<Paged>,
    held: &mut Held,
    blocks: &Blocks,
    bytes: &[u8],
) -> HeldInfo
    requires { AreBlocksPlaced session.now blocks.now (length bytes.now) }
    ensures { HeldBlocks session.now blocks.now bytes.now held.old result held.new }
{
    session.torrent().recall_sound();
    let (file, first) = blocks.place(0);
    let tree = session.torrent().tree_of(file).unwrap();
    let mut out = lay_out_unheld(blocks);
    let taken = BlocksInTree {
        tree,
        blocks,
        bytes,
    };
    'entries: for entry in 0..blocks.len() {
        hold_entry(session, &mut held.holdings, &taken, entry, &mut out);
    }
    let pieces = pieces_of(session, tree, first, blocks.len() as u64);
    held.cursor = Cursor::at(tree, pieces);
    out
}

// The pieces that have a block among these.
fn pieces_of(session: &OwnedSession<Paged>, tree: usize, first: u64, count: u64) -> Pieces
    requires tree { tree < length session.now.torrent.trees }
    requires few { first + count < 2 ^ 64 }
    ensures { ArePiecesOfRun session.now tree first count result }
{
    Pieces::of_blocks(session, tree, first, count)
}

// Holds the block of an entry if it cannot be proved yet.
fn hold_entry(
    session: &OwnedSession<Paged>,
    holdings: &mut Holdings,
    taken: &BlocksInTree<'_>,
    entry: usize,
    out: &mut HeldInfo,
)
    requires tree { taken.now.tree < length session.now.torrent.trees }
    requires block { IsTreeBlock session.now taken.now.tree (taken.now.blocks.now.first + entry) }
    requires bytes { 16384 * entry ≤ length taken.now.bytes.now }
    requires entry { entry < length taken.now.blocks.now.refusals }
    requires few { entry < 17 }
    ensures { (r : Option Why) × (slice_get taken.now.blocks.now.refusals entry ≡ Some r)
        × EntryHeld session.now taken.now.tree taken.now.blocks.now taken.now.bytes.now entry r
        holdings.old out.old holdings.new out.new }
{
    match taken.blocks.refusal(entry) {
        None => {}
        Some(BlockRefusal::BadPlace | BlockRefusal::BadSize | BlockRefusal::BadBlock) => {}
        Some(BlockRefusal::Unproved) => {
            let (_, block) = taken.blocks.place(entry);
            let bytes = block_of(taken.bytes, entry as u64);
            let hold = holdings.hold(session, taken.tree, block, bytes);
            write_hold(hold, entry, out);
        }
    }
}

/// Settles what can be settled first of the pieces that are looked at, and writes its blocks.
pub(crate) fn settle_held(
    session: &mut OwnedSession<Paged>,
    held: &mut Held,
    run: &mut RunInfo,
) -> u32
    ensures done { SettlesHeld run.new session.old held.old result session.new held.new }
    ensures unwritten { result ≢ 0 → result ≢ 10 → run.new ≡ run.old }
{
    let tree = held.cursor.tree;
    if tree >= session.torrent().trees().len() {
        return NO_SUCH;
    }
    let mut pieces = held.cursor.pieces;
    match held.holdings.settle_next(session, &mut pieces) {
        Ok(None) => NOTHING,
        Ok(Some(settled)) => {
            held.cursor = Cursor::at(tree, pieces);
            write_settled(&settled, run)
        }
        Err(_) => {
            held.cursor = Cursor::at(tree, pieces);
            NO_MEMORY
        }
    }
}
