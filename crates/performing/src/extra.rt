//! `check --extra`: the files that a torrent does not name.
use folders::ShelfFault;
use lines::{Checked, Line, LineSink, say};
use opening::Torrent;
use printing::{Fault, OUTPUT};
use real_files::{System, others_below};

/// Prints a line for each file below a folder that the torrent does not name, in the order of
/// paths. The fault is that the folder cannot be read, if one of its folders cannot be listed, or
/// that a name is not UTF-8.
pub(crate) fn print_extra<'a, L: LineSink>(
    system: &System,
    torrent: &Torrent<'_>,
    dir: &'a str,
    out: &mut L,
) -> Result<(), Fault<'a>> {
    let others = match others_below(system, dir, torrent) {
        Ok(others) => others,
        Err(ShelfFault::NoMemory) => return Err(Fault::NoMemory),
        Err(ShelfFault::Name) => return Err(Fault::NotUtf8),
        Err(_) => return Err(Fault::Read(dir)),
    };
    'paths: for path in &others {
        let line = Line::Checked(Checked::Extra(path.as_slice()));
        if say(&line, out).is_err() {
            return Err(Fault::Write(OUTPUT));
        }
    }
    Ok(())
}
