//! Messages that are taken by runs, several at once.
ghost use Rattle.std.specs.Prelude.{◌<◌};

use crate::again::{name_refused, print_changed};
use crate::given::{Call, Given, OUT_OF_MEMORY};
use crate::keeping::Directed;
use crate::state::{are_alike, compare, print_state};
use session::{NoMemory, NodeMap, Session, Verdict};
use std::alloc::{AllocError, Global};
use std::io;
use wire::Message;

// The messages of one run, with their directions and without, and how many others stand before
// them.
#[derive(Drop)]
struct RunPart<'p> {
    before: usize,
    directed: &'p [Directed<'p>],
    plain: Vec<Message<'p>>,
}

impl<'p> RunPart<'p> {
    fn new(
        alloc: Global,
        before: usize,
        directed: &'p [Directed<'p>],
    ) -> Result<RunPart<'p>, AllocError> {
        let mut plain = Vec::with_capacity(alloc, directed.len())?;
        for (_, message) in directed {
            plain.push(*message)?;
        }
        Ok(RunPart {
            before,
            directed,
            plain,
        })
    }

    fn run<N: NodeMap>(
        &self,
        call: Call,
        session: &mut Session<'_, N>,
    ) -> Result<Vec<Verdict>, NoMemory> {
        match call {
            Call::Noted => session.run_noted(self.directed),
            _ => session.run(&self.plain),
        }
    }
}

fn name(call: Call) -> &'static str {
    match call {
        Call::Noted => "run_noted",
        _ => "run",
    }
}

/// Takes the messages by runs of this many, and prints after each the verdicts and the session's
/// state.
pub(crate) fn run_messages<'t, N: NodeMap>(
    rt: &HostRuntime,
    session: &mut Session<'t, N>,
    given: &Given<'t>,
    size: usize,
) -> io::Result<()>
    requires { 0 < size }
{
    let mut before: usize = 0;
    for directed in given.messages.chunks(size) {
        run_part(rt, session, given, before, directed)?;
        before = before.wrapping_add(directed.len());
    }
    Ok(())
}

// Takes the messages of one run, and prints the verdicts and the session's state.
fn run_part<'t, N: NodeMap>(
    rt: &HostRuntime,
    session: &mut Session<'t, N>,
    given: &Given<'t>,
    before: usize,
    directed: &[Directed<'_>],
) -> io::Result<()> {
    let part = RunPart::new(rt.alloc(), before, directed)?;
    let verdicts = run_again(rt, session, given, &part)?;
    print_verdicts(rt, &verdicts)?;
    print_state(rt, session)
}

fn print_verdicts(rt: &HostRuntime, verdicts: &[Verdict]) -> io::Result<()> {
    println!(rt; "{verdicts:?}")
}

// The verdicts of a run. If memory is refused for one of its messages, they are those over a
// session that stands before the run and meets no refusal.
fn run_again<'t, N: NodeMap>(
    rt: &HostRuntime,
    session: &mut Session<'t, N>,
    given: &Given<'t>,
    part: &RunPart<'_>,
) -> io::Result<Vec<Verdict>> {
    let verdicts = run_with_room(rt, session, given, part)?;
    match first_refused(&verdicts) {
        None => Ok(verdicts),
        Some(number) => {
            judge(rt, session, given, part, number, &verdicts)?;
            Ok(run_anew(rt.alloc(), session, given, part)?)
        }
    }
}

// The number of the first message for which memory was refused.
fn first_refused(verdicts: &[Verdict]) -> Option<usize> {
    verdicts
        .iter()
        .position(|verdict| *verdict == OUT_OF_MEMORY)
}

fn run_anew<'t, N: NodeMap>(
    alloc: Global,
    session: &mut Session<'t, N>,
    given: &Given<'t>,
    part: &RunPart<'_>,
) -> Result<Vec<Verdict>, NoMemory> {
    *session = given.session_after(alloc, part.before)?;
    part.run(given.call, session)
}

// The verdicts of a run, which is made again if memory for them was refused.
fn run_with_room<N: NodeMap>(
    rt: &HostRuntime,
    session: &mut Session<'_, N>,
    given: &Given<'_>,
    part: &RunPart<'_>,
) -> io::Result<Vec<Verdict>> {
    match part.run(given.call, session) {
        Ok(verdicts) => Ok(verdicts),
        Err(NoMemory) => {
            compare(rt, name(given.call), session, given, part.before)?;
            Ok(part.run(given.call, session)?)
        }
    }
}

// Memory was refused for the message of this number: the others were to be judged as if it had not
// come. Then the whole run is made again, with ample memory.
fn judge<N: NodeMap>(
    rt: &HostRuntime,
    session: &mut Session<'_, N>,
    given: &Given<'_>,
    part: &RunPart<'_>,
    number: usize,
    verdicts: &[Verdict],
) -> io::Result<()> {
    let call = message_of(rt.alloc(), number, given.call)?;
    name_refused(rt, &call)?;
    if !stands_without_it(rt.alloc(), session, given, part, verdicts)? {
        print_changed(rt, &call)?;
    }
    Ok(())
}

fn message_of(alloc: Global, number: usize, call: Call) -> Result<String, AllocError> {
    format!(in alloc; "message {} of {}", number.wrapping_add(1), name(call))
}

// Whether the others are judged as if the message had not come, and the whole run, made again, too.
fn stands_without_it<N: NodeMap>(
    alloc: Global,
    session: &mut Session<'_, N>,
    given: &Given<'_>,
    part: &RunPart<'_>,
    verdicts: &[Verdict],
) -> Result<bool, NoMemory> {
    let mut other: Session<'_, N> = given.session_after(alloc, part.before)?;
    stands_like(session, &mut other, given, part, verdicts)
}

fn stands_like<N: NodeMap>(
    session: &mut Session<'_, N>,
    other: &mut Session<'_, N>,
    given: &Given<'_>,
    part: &RunPart<'_>,
    verdicts: &[Verdict],
) -> Result<bool, NoMemory> {
    let without_it = are_of_steps(session, other, given, part, verdicts)?;
    let verdicts = part.run(given.call, session)?;
    Ok(without_it && are_of_steps(session, other, given, part, &verdicts)?)
}

// Whether the verdicts of a run are those of steps over another session, which leave out a message
// for which memory was refused, and both sessions are alike then.
fn are_of_steps<N: NodeMap>(
    session: &Session<'_, N>,
    other: &mut Session<'_, N>,
    given: &Given<'_>,
    part: &RunPart<'_>,
    verdicts: &[Verdict],
) -> Result<bool, NoMemory> {
    for (message, verdict) in part.directed.iter().zip(verdicts) {
        if *verdict != OUT_OF_MEMORY && given.call.take(other, message) != *verdict {
            return Ok(false);
        }
    }
    are_alike(session, other, &given.messages)
}
