//! How a session takes the message of a whole frame, and what is held of it.

ghost use Rattle.std.specs.Prelude.{◌≡◌, ◌≢◌};
ghost use Rattle.btcheck_c.specs.WholeFrames.{BlocksHeld, HoldsWhole, LooksAtRoot, MessageHeld, MessageTaken, OfFrame, StepsAsAsked};

use crate::held::{Cursor, Held};
use crate::holding::hold_blocks;
use c_layouts::status::DONE;
use c_layouts::taken_info::{TakenInfo, held_of, write_held, write_taken};
use c_layouts::whole_frame::message_in;
use hashtree::Hash;
use node_maps::Paged;
use session::{OwnedSession, Verdict};
use wire::{Direction, Message};

/// Takes the message of a whole frame, if it is one.
pub(crate) fn take_whole(
    session: &mut OwnedSession<Paged>,
    frame: &[u8],
    asked: bool,
    out: &mut TakenInfo,
) -> u32
    ensures done { OfFrame (MessageTaken asked out.old out.new) frame.now session.old result
        session.new }
    ensures unwritten { result ≢ 0 → out.new ≡ out.old }
{
    match message_in(frame) {
        Err(status) => status,
        Ok(message) => take_message(session, &message, asked, out),
    }
}

/// Takes the message of a whole frame, if it is one, and holds what cannot be proved yet.
pub(crate) fn hold_whole(
    session: &mut OwnedSession<Paged>,
    held: &mut Held,
    frame: &[u8],
    asked: bool,
    out: &mut TakenInfo,
) -> u32
    ensures done { HoldsWhole asked frame.now out.old out.new session.old held.old result
        session.new held.new }
    ensures unwritten { result ≢ 0 → out.new ≡ out.old }
{
    match message_in(frame) {
        Err(status) => status,
        Ok(message) => hold_message(session, held, &message, asked, out),
    }
}

fn take_message(
    session: &mut OwnedSession<Paged>,
    message: &Message<'_>,
    asked: bool,
    out: &mut TakenInfo,
) -> u32
    ensures done { MessageTaken asked out.old out.new message.now session.old result session.new }
    ensures unwritten { result ≢ 0 → out.new ≡ out.old }
{
    let verdict = step(session, message, asked);
    write_taken(message, &verdict, out)
}

// The verdict on a message that came in; hashes may have to answer an open ask.
fn step(session: &mut OwnedSession<Paged>, message: &Message<'_>, asked: bool) -> Verdict
    ensures { StepsAsAsked asked session.old message.now result session.new }
{
    if asked {
        session.step_noted(Direction::In, message)
    } else {
        session.step(message)
    }
}

fn hold_message(
    session: &mut OwnedSession<Paged>,
    held: &mut Held,
    message: &Message<'_>,
    asked: bool,
    out: &mut TakenInfo,
) -> u32
    ensures done { MessageHeld asked out.old out.new message.now session.old held.old result
        session.new held.new }
    ensures unwritten { result ≢ 0 → out.new ≡ out.old }
{
    match *message {
        Message::Piece {
            index,
            begin,
            block,
        } => hold_piece(session, held, index, begin, block, out),
        Message::Hashes { ask, .. } => {
            let status = take_message(session, message, asked, out);
            if status == DONE {
                look_at_root(session, held, &ask.root);
            }
            status
        }
        Message::Request(_) | Message::Reject(_) | Message::KeepAlive | Message::Other { .. } => {
            take_message(session, message, asked, out)
        }
    }
}

// Takes the blocks of a piece message, and holds those that cannot be proved yet.
fn hold_piece(
    session: &mut OwnedSession<Paged>,
    held: &mut Held,
    index: u32,
    begin: u32,
    bytes: &[u8],
    out: &mut TakenInfo,
) -> u32
    ensures done { BlocksHeld out.old out.new index begin bytes.now session.old held.old result
        session.new held.new }
    ensures unwritten { result ≢ 0 → out.new ≡ out.old }
{
    let mut blocks = held_of(out);
    let status = hold_blocks(session, held, index, begin, bytes, &mut blocks);
    if status == DONE {
        write_held(blocks, out);
    }
    status
}

// Has all pieces of the tree with this root looked at.
fn look_at_root(session: &OwnedSession<Paged>, held: &mut Held, root: &Hash)
    ensures { LooksAtRoot session.now root.now held.old held.new }
{
    if let Some(tree) = session.torrent().tree_with_root(root) {
        held.cursor = Cursor::of_tree(tree);
    }
}
