//! What a refused call must leave as it was.
ghost use Rattle.std.specs.Prelude.{◌<◌, length};

use crate::again::{name_refused, print_changed};
use crate::given::Given;
use crate::keeping::Directed;
use opening::{Torrent, TreeInfo};
use session::{Answer, NoMemory, NodeMap, Session};
use std::alloc::Global;
use std::io;
use wire::{Ask, Message};

/// How many places are known, leaves marked, and pages held, in all trees.
#[derive(Clone, Copy, Debug, PartialEq, Eq)]
struct State {
    known: u64,
    marked: u64,
    pages: u64,
}

impl State {
    /// The state of a session.
    fn of<N: NodeMap>(session: &Session<'_, N>) -> State {
        let mut state = State {
            known: 0,
            marked: 0,
            pages: 0,
        };
        for tree in 0..session.torrent().trees().len() {
            state.known = state.known.wrapping_add(session.known(tree));
            state.marked = state.marked.wrapping_add(session.marked(tree));
            state.pages = state.pages.wrapping_add(session.pages(tree));
        }
        state
    }
}

/// Prints the state of a session.
pub(crate) fn print_state<N: NodeMap>(
    rt: &HostRuntime,
    session: &Session<'_, N>,
) -> io::Result<()> {
    println!(rt; "{:?}", State::of(session))
}

/// Names a call that failed, and prints `changed` if the session is not as one that took this many
/// of the messages, and no others.
pub(crate) fn compare<N: NodeMap>(
    rt: &HostRuntime,
    call: &str,
    session: &Session<'_, N>,
    given: &Given<'_>,
    count: usize,
) -> io::Result<()> {
    name_refused(rt, call)?;
    if is_after(rt.alloc(), session, given, count)? {
        return Ok(());
    }
    print_changed(rt, call)
}

fn is_after<N: NodeMap>(
    alloc: Global,
    session: &Session<'_, N>,
    given: &Given<'_>,
    count: usize,
) -> Result<bool, NoMemory> {
    let other: Session<'_, N> = given.session_after(alloc, count)?;
    are_alike(session, &other, &given.messages)
}

/// The same of a session that was to be as a new one.
pub(crate) fn compare_new<N: NodeMap>(
    rt: &HostRuntime,
    call: &str,
    session: &Session<'_, N>,
    torrent: &Torrent<'_>,
) -> io::Result<()> {
    compare(rt, call, session, &Given::nothing(rt.alloc(), torrent), 0)
}

/// Whether two sessions of a torrent have the same state, answer each ask alike, and have the same
/// asks of these messages open.
pub(crate) fn are_alike<N: NodeMap>(
    one: &Session<'_, N>,
    other: &Session<'_, N>,
    messages: &[Directed<'_>],
) -> Result<bool, NoMemory> {
    for tree in one.torrent().trees() {
        if !answer_alike(one, other, tree)? {
            return Ok(false);
        }
    }
    Ok(State::of(one) == State::of(other) && await_alike(one, other, messages))
}

// What is known of a tree are the root and pairs of places. Each pair is asked for, with all
// uncles; an ask past the last pair of a layer is rejected.
fn answer_alike<N: NodeMap>(
    one: &Session<'_, N>,
    other: &Session<'_, N>,
    tree: &TreeInfo<'_>,
) -> Result<bool, NoMemory> {
    let mut pairs = u32::try_from(tree.length / 16384).unwrap_or(u32::MAX);
    for base in 0..46 {
        for pair in 0..=pairs {
            let ask = Ask {
                root: tree.root,
                base,
                index: pair.wrapping_mul(2),
                length: 2,
                proof: 46,
            };
            if !answer_one(one, other, &ask)? {
                return Ok(false);
            }
        }
        pairs /= 2;
    }
    Ok(true)
}

// Whether the two answer an ask alike.
fn answer_one<N: NodeMap>(
    one: &Session<'_, N>,
    other: &Session<'_, N>,
    ask: &Ask,
) -> Result<bool, NoMemory> {
    let answer = one.answer(ask)?;
    Ok(are_same(&answer, &other.answer(ask)?))
}

fn are_same(one: &Answer, other: &Answer) -> bool {
    match (one, other) {
        (Answer::Hashes(hashes), Answer::Hashes(others)) => hashes.as_slice() == others.as_slice(),
        (Answer::Reject, Answer::Reject) => true,
        _ => false,
    }
}

fn await_alike<N: NodeMap>(
    one: &Session<'_, N>,
    other: &Session<'_, N>,
    messages: &[Directed<'_>],
) -> bool {
    for (_, message) in messages {
        if let Message::Request(ask) = message
            && one.is_open(ask) != other.is_open(ask)
        {
            return false;
        }
    }
    true
}
