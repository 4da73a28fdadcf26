//! How the blocks of one message are told, and held if they are unproved.
ghost use Rattle.std.specs.Prelude.{◌≡◌, ◌<◌, IfSome, IfNone, ℕ, length, slice_get, Some};
ghost use Rattle.partial_tree.specs.declared.refusal.BlockRefusal.TheVariants as BlockRefusal;
ghost use Rattle.replays.specs.ByPieces.{SaysEntries};
ghost use Rattle.replays.specs.Held.{IsRunOf, IsSaidOf};
ghost use Rattle.replays.specs.SaidLines.{IsOfEntry};

use crate::naming::{dropped_from, tree_of_file};
use crate::report::Outcome;
use crate::said::{Said, say};
use benc::DeviceFault;
use hashtree::BLOCK_LENGTH;
use holdings::Holdings;
use lines::LineSink;
use partial_tree::block_of;
use session::{BlockRefusal, Blocks, NodeMap, Session};

/// The blocks of one message, which are blocks of a tree, and its bytes.
#[derive(Clone, Copy)]
pub(crate) struct Delivery<'a> {
    pub(crate) tree: usize,
    pub(crate) blocks: &'a Blocks,
    pub(crate) bytes: &'a [u8],
}

/// The blocks of a message with these bytes, if they are blocks of a tree, and each has bytes of
/// its own.
pub(crate) fn delivered<'a, N: NodeMap>(
    session: &Session<'_, N>,
    blocks: &'a Blocks,
    bytes: &'a [u8],
) -> Option<Delivery<'a>>
    ensures run { IfSome result (λ c. IsRunOf session.now c.blocks.now c.bytes.now c.tree) }
    ensures blocks { IfSome result (λ c. c.blocks.now ≡ blocks.now) }
    ensures bytes { IfSome result (λ c. c.bytes.now ≡ bytes.now) }
    ensures none { IfNone result ((n : ℕ) → ¬ IsRunOf session.now blocks.now bytes.now n) }
{
    match tree_of_run(session, blocks, bytes) {
        Some(tree) => Some(Delivery {
            tree,
            blocks,
            bytes,
        }),
        None => None,
    }
}

// The tree whose blocks these are, if they are blocks of one.
fn tree_of_run<N: NodeMap>(session: &Session<'_, N>, blocks: &Blocks, bytes: &[u8]) -> Option<usize>
    ensures run { IfSome result (IsRunOf session.now blocks.now bytes.now) }
    ensures none { IfNone result ((n : ℕ) → ¬ IsRunOf session.now blocks.now bytes.now n) }
{
    let count = blocks.len();
    if count == 0 || BLOCK_LENGTH * count as u64 > bytes.len() as u64 + (BLOCK_LENGTH - 1) {
        return None;
    }
    let (file, last) = blocks.place(count - 1);
    match tree_of_file(session.torrent(), file) {
        Some(tree) if last < session.blocks(tree) => Some(tree),
        _ => None,
    }
}

/// Tells the entries of a message, one after the other, and holds those that are unproved.
pub(crate) fn tell_entries<N: NodeMap, L: LineSink>(
    held: &mut Holdings,
    session: &Session<'_, N>,
    delivery: Delivery<'_>,
    out: &mut L,
    number: u64,
    outcome: &mut Outcome,
) -> Result<(), DeviceFault>
    requires { IsRunOf session.now delivery.blocks.now delivery.bytes.now delivery.tree }
    ensures { SaysEntries session.now delivery.entry.blocks.now delivery.entry.bytes.now
        delivery.entry.tree held.old held.new L.spelled number (L.seen out.old) (L.seen out.new)
        outcome.old outcome.new result }
{
    'entries: for entry in 0..delivery.blocks.len() {
        let said = hold_entry(held, session, delivery, entry);
        match say(out, number, &said, outcome) {
            Ok(()) => {}
            Err(fault) => return Err(fault),
        }
    }
    Ok(())
}

// Holds an entry if it is unproved: what is told of it.
fn hold_entry<N: NodeMap>(
    held: &mut Holdings,
    session: &Session<'_, N>,
    delivery: Delivery<'_>,
    entry: usize,
) -> Said
    requires run { IsRunOf session.now delivery.blocks.now delivery.bytes.now delivery.tree }
    requires entry { entry < length delivery.blocks.now.refusals }
    ensures said { IsSaidOf session.now delivery.entry.blocks.now delivery.entry.bytes.now
        delivery.entry.tree entry held.old result held.new }
    ensures place { IsOfEntry result }
{
    let refusal = delivery.blocks.refusal(entry);
    match refusal {
        Some(BlockRefusal::Unproved) => hold_block(held, session, delivery, entry),
        refusal => Said::Entry {
            blocks: *delivery.blocks,
            entry,
            refusal,
        },
    }
}

// Holds an entry that is unproved: what is told of it.
fn hold_block<N: NodeMap>(
    held: &mut Holdings,
    session: &Session<'_, N>,
    delivery: Delivery<'_>,
    entry: usize,
) -> Said
    requires run { IsRunOf session.now delivery.blocks.now delivery.bytes.now delivery.tree }
    requires entry { slice_get delivery.blocks.now.refusals entry
        ≡ Some (Some BlockRefusal.Unproved) }
    ensures said { IsSaidOf session.now delivery.entry.blocks.now delivery.entry.bytes.now
        delivery.entry.tree entry held.old result held.new }
    ensures place { IsOfEntry result }
{
    let (near, block) = delivery.blocks.place(entry);
    let bytes = block_of(delivery.bytes, entry as u64);
    let hold = held.hold(session, delivery.tree, block, bytes);
    Said::Unproved {
        blocks: *delivery.blocks,
        entry,
        hold,
        file: dropped_from(session, near, hold),
    }
}
