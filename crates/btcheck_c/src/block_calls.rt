//! The calls on the blocks of a piece message, which may be several, and on a whole piece.

ghost use Rattle.std.specs.Prelude.{◌≡◌, ◌≢◌};
ghost use Rattle.btcheck_c.specs.Blocks.{TakesBlocks};
ghost use Rattle.btcheck_c.specs.SessionCalls.{TakesPiece};
ghost use Rattle.btcheck_c.specs.Holds.{Through};
ghost use Rattle.btcheck_c.specs.declared.thing.Kind.TheVariants as kind;

use crate::handle::Handle;
use crate::lending::lend;
use crate::thing::Kind;
use c_layouts::blocks_info::{BlocksInfo, write_blocks};
use c_layouts::status::{WRONG_HANDLE, status_of_piece};
use node_maps::Paged;
use session::OwnedSession;
use std::alloc::Global;

fn take_blocks(
    session: &mut OwnedSession<Paged>,
    index: u32,
    begin: u32,
    bytes: &[u8],
    out: &mut BlocksInfo,
) -> u32
    ensures done { TakesBlocks index begin bytes.now out.new (kind.Session session.old) result
        (kind.Session session.new) }
    ensures unwritten { result ≢ 0 → out.new ≡ out.old }
{
    write_blocks(session.take_blocks(index, begin, bytes), out)
}

fn take_piece(
    session: &mut OwnedSession<Paged>,
    index: u32,
    bytes: &[u8],
    file: &mut u64,
    block: &mut u64,
) -> u32
    ensures done { TakesPiece index bytes.now file.new block.new (kind.Session session.old) result
        (kind.Session session.new) }
    ensures unwritten { result ≢ 0 → (file.new ≡ file.old) × (block.new ≡ block.old) }
{
    status_of_piece(session.take_piece(index, bytes), file, block)
}

/// Takes the blocks of a piece message, at most 17, and writes which they are and what is made of
/// each. Status 1: the handle holds no session. Status 301 or 302: the whole message is refused.
/// Then the session is as before.
#[unsafe(no_mangle)]
pub extern "C" fn btcheck_session_take_blocks(
    alloc: Global,
    handle: &mut Handle,
    index: u32,
    begin: u32,
    bytes: &[u8],
    out: &mut BlocksInfo,
) -> u32
    ensures done { Through (TakesBlocks index begin bytes.now out.new) handle.old.slot.held result
        handle.new.slot.held }
    ensures unwritten { result ≢ 0 → out.new ≡ out.old }
{
    lend!(handle, alloc, Session(session) => take_blocks(session, index, begin, bytes, out))
}

/// Takes the bytes of a whole piece, of which the file's last one may be shorter, and writes the
/// file and its first block of the piece. Each leaf of the piece is known then, and marked. Status
/// 1: the handle holds no session. Status 2: memory was refused. Status 300 + n: refusal Pn; P3:
/// the node that covers the piece is not known; P4: the bytes lead to another one. Then the session
/// is as before.
#[unsafe(no_mangle)]
pub extern "C" fn btcheck_session_take_piece(
    alloc: Global,
    handle: &mut Handle,
    index: u32,
    bytes: &[u8],
    file: &mut u64,
    block: &mut u64,
) -> u32
    ensures done { Through (TakesPiece index bytes.now file.new block.new) handle.old.slot.held
        result handle.new.slot.held }
    ensures unwritten { result ≢ 0 → (file.new ≡ file.old) × (block.new ≡ block.old) }
{
    lend!(handle, alloc, Session(session) => take_piece(session, index, bytes, file, block))
}
