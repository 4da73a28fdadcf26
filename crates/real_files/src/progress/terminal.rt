//! What is known of the terminal.
use std::env::Env;
use std::io::IsTerminal;
use std::str;

// This many if the environment does not say how many there are: few terminals are narrower.
const USUAL_COLUMNS: usize = 45;

// More are left empty.
const MOST_COLUMNS: usize = 500;

/// How many columns a line may have, if standard error is a terminal on which a line can be written
/// anew.
pub(crate) fn columns(rt: &HostRuntime) -> Option<usize> {
    let mut term = [0u8; 8];
    let mut columns = [0u8; 8];
    if !rt.stderr().is_terminal() || variable(rt, "TERM", &mut term) == Some("dumb") {
        return None;
    }
    let stated = variable(rt, "COLUMNS", &mut columns).and_then(|text| text.parse::<usize>().ok());
    match stated {
        None | Some(0) => Some(USUAL_COLUMNS),
        Some(count) => Some(count.min(MOST_COLUMNS)),
    }
}

// The value of a variable of the environment, if it is a text that fits.
fn variable<'a>(rt: &HostRuntime, name: &str, buf: &'a mut [u8]) -> Option<&'a str> {
    let len = rt.var(name, buf).ok()?;
    str::from_utf8(&buf[..len]).ok()
}
