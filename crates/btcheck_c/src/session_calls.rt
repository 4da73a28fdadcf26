//! The calls on a session: taking hashes and blocks, and what is known.

ghost use Rattle.std.specs.Prelude.{◌≡◌, ◌≢◌, None};
ghost use Rattle.btcheck_c.specs.SessionCalls.{SessionTakesHashes, TakesBlock, Counted, AnswersIfMarked};
ghost use Rattle.btcheck_c.specs.Holds.{Through};
ghost use Rattle.btcheck_c.specs.declared.thing.Kind.TheVariants as kind;

use crate::handle::Handle;
use crate::lending::lend;
use crate::thing::Kind;
use crate::trees::has_block;
use c_layouts::status::{
    DONE, NO_SUCH, WRONG_HANDLE, status_of_answer, status_of_block, status_of_hashes,
};
use node_maps::Paged;
use session::OwnedSession;
use std::alloc::Global;
use wire::{Ask, Hash};

fn counts(session: &OwnedSession<Paged>, tree: usize, known: &mut u64, marked: &mut u64) -> u32
    ensures done { Counted tree known.new marked.new (kind.Session session.now) result
        (kind.Session session.now) }
    ensures unwritten { result ≢ 0 → (known.new ≡ known.old) × (marked.new ≡ marked.old) }
{
    if tree >= session.torrent().trees().len() {
        return NO_SUCH;
    }
    *known = session.known(tree);
    *marked = session.marked(tree);
    DONE
}

fn is_marked(session: &OwnedSession<Paged>, tree: usize, block: u64) -> u32
    ensures { AnswersIfMarked tree block (kind.Session session.now) result
        (kind.Session session.now) }
{
    if has_block(session.torrent(), tree, block) {
        status_of_answer(session.is_marked(tree, block))
    } else {
        NO_SUCH
    }
}

fn take_hashes(
    session: &mut OwnedSession<Paged>,
    ask: &Ask,
    hashes: &[Hash],
    places: &mut u64,
) -> u32
    ensures done { SessionTakesHashes ask.now hashes.now places.new (kind.Session session.old)
        result (kind.Session session.new) }
    ensures unwritten { result ≢ 0 → places.new ≡ places.old }
{
    status_of_hashes(session.take_hashes(ask, hashes), places)
}

fn take_block(
    session: &mut OwnedSession<Paged>,
    index: u32,
    begin: u32,
    bytes: &[u8],
    file: &mut u64,
    block: &mut u64,
) -> u32
    ensures done { TakesBlock index begin bytes.now file.new block.new
        (kind.Session session.old) result
        (kind.Session session.new) }
    ensures unwritten { result ≢ 0 → (file.new ≡ file.old) × (block.new ≡ block.old) }
{
    status_of_block(session.take_block(index, begin, bytes), file, block)
}

/// Takes a hashes message: its five fields and its hashes, and writes how many places are newly
/// known. Status 1: the handle holds no session. Status 200 + n: refusal Hn. Then the session is as
/// before.
#[unsafe(no_mangle)]
pub extern "C" fn btcheck_session_take_hashes(
    alloc: Global,
    handle: &mut Handle,
    root: &[u8; 32],
    base: u32,
    index: u32,
    length: u32,
    proof: u32,
    hashes: &[[u8; 32]],
    places: &mut u64,
) -> u32
    ensures done { Through (SessionTakesHashes
        (record { root = root.now; base = base; index = index; length = length; proof = proof })
        hashes.now places.new) handle.old.slot.held result handle.new.slot.held }
    ensures unwritten { result ≢ 0 → places.new ≡ places.old }
{
    let ask = Ask {
        root: *root,
        base,
        index,
        length,
        proof,
    };
    lend!(handle, alloc, Session(session) => take_hashes(session, &ask, hashes, places))
}

/// Takes a block of a piece message, and writes which block of which file it is. Status 1: the
/// handle holds no session. Status 300 + n: refusal Pn. Then the session is as before.
#[unsafe(no_mangle)]
pub extern "C" fn btcheck_session_take_block(
    alloc: Global,
    handle: &mut Handle,
    index: u32,
    begin: u32,
    bytes: &[u8],
    file: &mut u64,
    block: &mut u64,
) -> u32
    ensures done { Through (TakesBlock index begin bytes.now file.new block.new)
        handle.old.slot.held result handle.new.slot.held }
    ensures unwritten { result ≢ 0 → (file.new ≡ file.old) × (block.new ≡ block.old) }
{
    lend!(handle, alloc, Session(session) => take_block(session, index, begin, bytes, file, block))
}

/// Writes how many places of a tree are known, and how many of its leaves are marked. Status 1: the
/// handle holds no session. Status 5: there is no such tree. The session is as before.
#[unsafe(no_mangle)]
pub extern "C" fn btcheck_session_counts(
    alloc: Global,
    handle: &mut Handle,
    tree: usize,
    known: &mut u64,
    marked: &mut u64,
) -> u32
    ensures done { Through (Counted tree known.new marked.new) handle.old.slot.held result
        handle.new.slot.held }
    ensures unwritten { result ≢ 0 → (known.new ≡ known.old) × (marked.new ≡ marked.old) }
{
    lend!(handle, alloc, Session(session) => counts(session, tree, known, marked))
}

/// Whether the leaf of a block of a tree is marked as verified. Status 1: the handle holds no
/// session. Status 5: there is no such tree, or its files have no such block. Status 6: the leaf is
/// not marked. The session is as before.
#[unsafe(no_mangle)]
pub extern "C" fn btcheck_session_is_marked(
    alloc: Global,
    handle: &mut Handle,
    tree: usize,
    block: u64,
) -> u32
    ensures { Through (AnswersIfMarked tree block) handle.old.slot.held result
        handle.new.slot.held }
{
    lend!(handle, alloc, Session(session) => is_marked(session, tree, block))
}

/// Frees what the handle holds, and empties it.
#[unsafe(no_mangle)]
pub extern "C" fn btcheck_session_free(alloc: Global, handle: &mut Handle)
    ensures { handle.new.slot.held ≡ None }
{
    drop(handle.take(alloc));
}
