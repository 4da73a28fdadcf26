//! What is said of parts of which no torrent can be made.
use crate::join_faults::blame;
use assembling::AssembleFault;
use printing::Fault;
use real_files::System;
use std::io::Write;

/// Says on standard error, as of other faults, why the parts with these paths are not assembled.
/// Gives the exit status of a fault. What cannot be written is lost.
pub(crate) fn refuse_assembly<'a>(
    system: &System,
    fault: AssembleFault,
    paths: &[&str],
) -> Result<u8, Fault<'a>> {
    let mut out = system.rt().stderr();
    match fault {
        AssembleFault::NoMemory | AssembleFault::Refused(_, _) => return Err(Fault::NoMemory),
        AssembleFault::Missing(number, count) => {
            let _ = writeln!(out, "fault: part {number} of {count} is missing");
        }
        AssembleFault::Twice(number) => {
            let _ = writeln!(out, "fault: part {number} is there twice");
        }
        AssembleFault::OtherFolder(number) => {
            let _ = writeln!(out, "fault: part {number} is of another folder");
        }
        AssembleFault::NoPart(place) => blame(system, b"fault: no whole part: ", paths, place),
        AssembleFault::OtherCount(place) => blame(
            system,
            b"fault: a part of another number of parts: ",
            paths,
            place,
        ),
    }
    Ok(2)
}
