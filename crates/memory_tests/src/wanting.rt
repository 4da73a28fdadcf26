//! What a session wants next.
use crate::given::Given;
use hashtree::Shape;
use session::{NodeMap, Session};
use std::io;

/// Takes the messages, and prints at the start and after each what is wanted for each block of the
/// torrent's first tree.
pub(crate) fn want_each<N: NodeMap>(
    rt: &HostRuntime,
    session: &mut Session<'_, N>,
    given: &Given<'_>,
) -> io::Result<()> {
    print_wanted(rt, session)?;
    for message in given.messages.iter() {
        let _ = given.call.take(session, message);
        print_wanted(rt, session)?;
    }
    Ok(())
}

fn print_wanted<N: NodeMap>(rt: &HostRuntime, session: &Session<'_, N>) -> io::Result<()> {
    let [tree, ..] = session.torrent().trees() else {
        return Ok(());
    };
    let Some(shape) = Shape::of(tree.length) else {
        return Ok(());
    };
    for block in 0..shape.blocks() {
        println!(rt; "{:?}", session.want(0, block))?;
    }
    Ok(())
}
