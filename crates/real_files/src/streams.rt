//! The standard streams, which a program may be started without.
use printing::Fault;
use std::fs::File;
use std::os::fd::AsFd;

/// What stands in the places of standard streams that were closed when the program began. As long
/// as it is there, no other file gets such a place, and so no file gets what is printed.
#[derive(Drop)]
pub struct Placeholders {
    _stdin: Option<File>,
    _stdout: Option<File>,
    _stderr: Option<File>,
}

/// Takes the places of the standard streams that are closed, in the order of their numbers, since
/// the system gives a new file the least number that is free.
pub fn hold_closed_streams(rt: &HostRuntime) -> Result<Placeholders, Fault<'static>> {
    Ok(Placeholders {
        _stdin: placeholder(rt, &rt.stdin())?,
        _stdout: placeholder(rt, &rt.stdout())?,
        _stderr: placeholder(rt, &rt.stderr())?,
    })
}

// A file in place of this stream, if that is closed. It is a folder that is always there, so that
// reading and writing fail as they do at a closed stream.
fn placeholder<S: AsFd>(rt: &HostRuntime, stream: &S) -> Result<Option<File>, Fault<'static>> {
    if !is_closed(stream) {
        return Ok(None);
    }
    match File::open(rt, "/") {
        Ok(folder) => Ok(Some(folder)),
        Err(_) => Err(Fault::Read("/")),
    }
}

// What the system answers of a descriptor that is not open, EBADF. It answers something else if no
// further one may be opened.
const NOT_OPEN: i32 = 9;

fn is_closed<S: AsFd>(stream: &S) -> bool {
    match stream.as_fd().try_clone_to_owned() {
        Ok(_) => false,
        Err(error) => error.raw_os_error() == Some(NOT_OPEN),
    }
}
