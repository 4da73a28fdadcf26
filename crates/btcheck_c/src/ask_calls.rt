//! The calls about hash requests: what to ask for, that it was asked, and what answers it.

ghost use Rattle.std.specs.Prelude.{◌≡◌, ◌≢◌, Option};
ghost use Rattle.partial_tree.specs.declared.answer.Answer.{Answer as Given};
ghost use Rattle.c_layouts.specs.Asks.{ask_of};
ghost use Rattle.btcheck_c.specs.AskCalls.{HasWant, Wants, HasNote, SessionNotes, TakesAnswer, HasAnswer, SessionAnswers, AnswersIfAnswered};
ghost use Rattle.btcheck_c.specs.Holds.{Through};
ghost use Rattle.btcheck_c.specs.Taken.{AnswerGiven, AskNoted};
ghost use Rattle.btcheck_c.specs.declared.thing.Kind.TheVariants as kind;

use crate::handle::Handle;
use crate::lending::lend;
use crate::thing::Kind;
use crate::trees::has_block;
use c_layouts::asked::{Asked, lay_out, read_ask};
use c_layouts::status::{
    DONE, NO_MEMORY, NO_SUCH, NOTHING, TOO_SMALL, WRONG_HANDLE, status_of_answer, status_of_hashes,
};
use node_maps::Paged;
use partial_tree::Answer;
use session::OwnedSession;
use std::alloc::Global;
use wire::{Ask, Hash};

// The status of what is wanted, and the ask.
fn write_want(want: Option<Ask>, asked: &mut Asked) -> u32
    ensures done { HasWant want result asked.new }
    ensures unwritten { result ≢ 0 → asked.new ≡ asked.old }
{
    match want {
        None => NOTHING,
        Some(ask) => {
            *asked = lay_out(&ask);
            DONE
        }
    }
}

fn status_of_note(done: bool) -> u32
    ensures { HasNote done result }
{
    if done { DONE } else { NO_MEMORY }
}

// The status of an answer, whose hashes go to the front of the room, and how many they are.
fn write_answer(answer: &Option<Answer>, room: &mut [Hash], count: &mut u64) -> u32
    ensures done { HasAnswer answer.now result room.old room.new count.new }
    ensures unwritten { result ≢ 0 → (room.new ≡ room.old)
        × (result ≢ 7 → count.new ≡ count.old) }
{
    match answer {
        None => NO_MEMORY,
        Some(Answer::Reject) => NOTHING,
        Some(Answer::Hashes(hashes)) => {
            *count = hashes.len() as u64;
            if hashes.len() > room.len() {
                return TOO_SMALL;
            }
            room[..hashes.len()].copy_from_slice(hashes);
            DONE
        }
    }
}

// Whether an ask is open now: not if memory was refused for it.
fn note_ask(session: &mut OwnedSession<Paged>, ask: &Ask) -> bool
    ensures { AskNoted session.old ask.now result session.new }
{
    session.note(ask).is_ok()
}

/// What a session answers: `None` only if memory was refused.
pub(crate) fn answer_to(session: &OwnedSession<Paged>, ask: &Ask) -> Option<Answer>
    ensures { AnswerGiven session.now ask.now result }
{
    session.answer(ask).ok()
}

fn want(session: &OwnedSession<Paged>, tree: usize, block: u64, asked: &mut Asked) -> u32
    ensures done { Wants tree block asked.new (kind.Session session.now) result
        (kind.Session session.now) }
    ensures unwritten { result ≢ 0 → asked.new ≡ asked.old }
{
    if has_block(session.torrent(), tree, block) {
        write_want(session.want(tree, block), asked)
    } else {
        NO_SUCH
    }
}

fn note(session: &mut OwnedSession<Paged>, ask: &Ask) -> u32
    ensures { SessionNotes ask.now (kind.Session session.old) result (kind.Session session.new) }
{
    status_of_note(note_ask(session, ask))
}

fn take_answer(
    session: &mut OwnedSession<Paged>,
    ask: &Ask,
    hashes: &[Hash],
    places: &mut u64,
) -> u32
    ensures done { TakesAnswer ask.now hashes.now places.new (kind.Session session.old) result
        (kind.Session session.new) }
    ensures unwritten { result ≢ 0 → places.new ≡ places.old }
{
    status_of_hashes(session.take_answer(ask, hashes), places)
}

fn answer(session: &OwnedSession<Paged>, ask: &Ask, room: &mut [Hash], count: &mut u64) -> u32
    ensures done { SessionAnswers ask.now room.old room.new count.new (kind.Session session.now)
        result (kind.Session session.now) }
    ensures unwritten { result ≢ 0 → (room.new ≡ room.old)
        × (result ≢ 7 → count.new ≡ count.old) }
{
    write_answer(&answer_to(session, ask), room, count)
}

fn can_answer(session: &OwnedSession<Paged>, ask: &Ask) -> u32
    ensures { AnswersIfAnswered ask.now (kind.Session session.now) result
        (kind.Session session.now) }
{
    status_of_answer(session.can_answer(ask))
}

/// Writes what to ask for next to learn the leaf of a block of a tree. Status 1: the handle holds
/// no session. Status 5: there is no such tree, or its files have no such block. Status 6: the leaf
/// is known. The session is as before.
#[unsafe(no_mangle)]
pub extern "C" fn btcheck_session_want(
    alloc: Global,
    handle: &mut Handle,
    tree: usize,
    block: u64,
    asked: &mut Asked,
) -> u32
    ensures done { Through (Wants tree block asked.new) handle.old.slot.held result
        handle.new.slot.held }
    ensures unwritten { result ≢ 0 → asked.new ≡ asked.old }
{
    lend!(handle, alloc, Session(session) => want(session, tree, block, asked))
}

/// Notes that a request with these fields was sent. Status 1: the handle holds no session. Status
/// 2: memory was refused. Then the session is as before.
#[unsafe(no_mangle)]
pub extern "C" fn btcheck_session_note(alloc: Global, handle: &mut Handle, asked: &Asked) -> u32
    ensures { Through (SessionNotes (ask_of asked.now)) handle.old.slot.held result
        handle.new.slot.held }
{
    lend!(handle, alloc, Session(session) => note(session, &read_ask(asked)))
}

/// Takes a hashes message that answers a noted request, and writes how many places are newly known.
/// Status 1: the handle holds no session. Status 200 + n: refusal Hn. Then nothing has changed.
#[unsafe(no_mangle)]
pub extern "C" fn btcheck_session_take_answer(
    alloc: Global,
    handle: &mut Handle,
    asked: &Asked,
    hashes: &[[u8; 32]],
    places: &mut u64,
) -> u32
    ensures done { Through (TakesAnswer (ask_of asked.now) hashes.now places.new)
        handle.old.slot.held result handle.new.slot.held }
    ensures unwritten { result ≢ 0 → places.new ≡ places.old }
{
    lend!(handle, alloc, Session(session) => take_answer(session, &read_ask(asked), hashes, places))
}

/// Writes the hashes that answer a request to the front of the room, and how many they are. Status
/// 1: the handle holds no session. Status 2: memory was refused. Status 6: the request cannot be
/// answered. Status 7: the room has fewer places than there are hashes. The session is as before.
#[unsafe(no_mangle)]
pub extern "C" fn btcheck_session_answer(
    alloc: Global,
    handle: &mut Handle,
    asked: &Asked,
    room: &mut [[u8; 32]],
    count: &mut u64,
) -> u32
    ensures done { Through (SessionAnswers (ask_of asked.now) room.old room.new count.new)
        handle.old.slot.held result handle.new.slot.held }
    ensures unwritten { result ≢ 0 → (room.new ≡ room.old)
        × (result ≢ 7 → count.new ≡ count.old) }
{
    lend!(handle, alloc, Session(session) => answer(session, &read_ask(asked), room, count))
}

/// Whether the hashes that a request asks for are known. Status 1: the handle holds no session.
/// Status 6: they are not. The session is as before.
#[unsafe(no_mangle)]
pub extern "C" fn btcheck_session_can_answer(
    alloc: Global,
    handle: &mut Handle,
    asked: &Asked,
) -> u32
    ensures { Through (AnswersIfAnswered (ask_of asked.now)) handle.old.slot.held result
        handle.new.slot.held }
{
    lend!(handle, alloc, Session(session) => can_answer(session, &read_ask(asked)))
}
