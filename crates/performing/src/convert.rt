//! `convert`: a record of form 2 of one of form 1.
use crate::sizes::length_of;
use actions::Convert;
use benc::{FromRead, FromWrite};
use commands::outcomes;
use printing::Fault;
use real_files::{Cleared, Counted, Noted, Progress, StandardOutput, System, create_output};
use std::io::IsTerminal;

/// Makes a record of form 2 of one of form 1. The new record's file is opened before the record.
/// Frames go out all the time, so they leave the line where it is, but not if a terminal shows
/// them. Gives the exit status.
pub(crate) fn perform_convert<'a>(system: &System, asked: &Convert<'a>) -> Result<u8, Fault<'a>> {
    let written = create_output(system, asked.out, &[asked.record])?;
    let file = system.open(asked.record)?;
    let progress = Progress::new(system.rt(), length_of(&file));
    let shown = written.is_terminal().then_some(&progress);
    let mut converted = Cleared::new(FromWrite::new(Noted::new(written, system)), shown);
    let read = FromRead::new(Noted::new(file, system));
    let mut source = Counted::new(read, asked.record, 0, &progress);
    let mut out = StandardOutput::unbuffered(system).below(&progress);
    outcomes::convert(
        asked.record,
        &mut source,
        asked.out,
        &mut converted,
        &mut out,
    )
}
