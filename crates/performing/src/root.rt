//! `root`: the length and the pieces root of a file.
use crate::printed::say_to;
use crate::sizes::length_of;
use benc::FromRead;
use commands::outcomes;
use printing::Fault;
use real_files::{Counted, Noted, Progress, StandardOutput, System};

/// Prints the length and the pieces root of the file with this path. Gives the exit status.
pub(crate) fn perform_root<'a>(
    system: &System,
    path: &'a str,
    json: bool,
) -> Result<u8, Fault<'a>> {
    let file = system.open(path)?;
    let progress = Progress::new(system.rt(), length_of(&file));
    let mut source = Counted::new(FromRead::new(Noted::new(file, system)), path, 0, &progress);
    let out = StandardOutput::unbuffered(system).below(&progress);
    say_to!(json, out, lines => outcomes::root(system.alloc(), path, &mut source, &mut lines))
}
