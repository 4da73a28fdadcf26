//! The messages of a record, taken by a session.
use crate::given::{Call, Given, OUT_OF_MEMORY};
use crate::keeping::{Directed, keep_messages, lend_messages};
use crate::runs::run_messages;
use crate::state::{compare, print_state};
use crate::wanting::want_each;
use opening::Torrent;
use session::{Answer, NoMemory, NodeMap, Session};
use std::io;
use wire::{Ask, Message};

/// Gives the messages of a record to a new session, one at a time or by runs.
pub(crate) fn take_record<N: NodeMap>(
    rt: &HostRuntime,
    torrent: &Torrent<'_>,
    record: &[u8],
    call: &str,
) -> io::Result<()> {
    let kept = keep_messages(rt, record)?;
    let messages = lend_messages(rt.alloc(), &kept)?;
    let given = Given::new(torrent, knows_layers(call), Call::of(call), messages);
    take_given::<N>(rt, &given, call)
}

// Whether the session of this call knows the piece layers.
fn knows_layers(call: &str) -> bool {
    match call {
        "run" | "run of all" => true,
        _ => false,
    }
}

fn take_given<N: NodeMap>(rt: &HostRuntime, given: &Given<'_>, call: &str) -> io::Result<()> {
    let mut session: Session<'_, N> = given.session(rt)?;
    match call {
        "run" => run_messages(rt, &mut session, given, 1),
        "want" => want_each(rt, &mut session, given),
        "run of all" | "run_noted" => run_messages(rt, &mut session, given, usize::MAX),
        _ => take_messages(rt, &mut session, given),
    }
}

// Takes each message, and prints what it came to and the session's state.
fn take_messages<'t, N: NodeMap>(
    rt: &HostRuntime,
    session: &mut Session<'t, N>,
    given: &Given<'t>,
) -> io::Result<()> {
    for (number, message) in given.messages.iter().enumerate() {
        take_again(rt, session, given, number, message)?;
        print_state(rt, session)?;
    }
    Ok(())
}

// Takes the message of this number, and answers it if it is a request.
fn take_again<N: NodeMap>(
    rt: &HostRuntime,
    session: &mut Session<'_, N>,
    given: &Given<'_>,
    number: usize,
    message: &Directed<'_>,
) -> io::Result<()> {
    let mut verdict = given.call.take(session, message);
    if verdict == OUT_OF_MEMORY {
        let call = given.call.name(message.0);
        compare(rt, call, session, given, number)?;
        verdict = given.call.take(session, message);
    }
    println!(rt; "{verdict:?}")?;
    match &message.1 {
        Message::Request(ask) => answer_again(rt, session, given, number, ask),
        _ => Ok(()),
    }
}

// Answers the request of this number.
fn answer_again<N: NodeMap>(
    rt: &HostRuntime,
    session: &Session<'_, N>,
    given: &Given<'_>,
    number: usize,
    ask: &Ask,
) -> io::Result<()> {
    let answer = match session.answer(ask) {
        Ok(answer) => answer,
        Err(NoMemory) => {
            compare(rt, "answer", session, given, number.wrapping_add(1))?;
            session.answer(ask)?
        }
    };
    match answer {
        Answer::Hashes(hashes) => println!(rt; "{:?}", hashes.as_slice()),
        Answer::Reject => println!(rt; "rejected"),
    }
}
