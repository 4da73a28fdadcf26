//! What is said of reports that cannot be joined.
use crate::hints::{are_told, tell};
use benc::{DeviceFault, FromWrite, Sink, write_all};
use part_reports::{JoinFault, kind_of};
use printing::{Fault, write_escaped};
use real_files::System;
use std::io::Write;

/// Says on standard error, as of other faults, why the reports with these paths and texts are not
/// joined. Gives the exit status of a fault. What cannot be written is lost.
pub(crate) fn refuse_join<'a>(
    system: &System,
    fault: JoinFault,
    paths: &[&str],
    texts: &[&[u8]],
) -> Result<u8, Fault<'a>> {
    let mut out = system.rt().stderr();
    match fault {
        JoinFault::NoMemory => return Err(Fault::NoMemory),
        JoinFault::Missing(number, count) => {
            let _ = writeln!(out, "fault: part {number} of {count} is missing");
        }
        JoinFault::Twice(number) => {
            let _ = writeln!(out, "fault: part {number} is there twice");
        }
        JoinFault::NoReport(place) => {
            blame(system, b"fault: no whole report of a part: ", paths, place);
            hint_at_report(system, texts, place);
        }
        JoinFault::OtherTorrent(place) => blame(
            system,
            b"fault: a part of another torrent: ",
            paths,
            place,
        ),
        JoinFault::OtherCount(place) => blame(
            system,
            b"fault: a report of another number of parts: ",
            paths,
            place,
        ),
    }
    Ok(2)
}

// Tells of the text at this place what other than a cut or a change makes it no report.
fn hint_at_report(system: &System, texts: &[&[u8]], place: usize) {
    if !are_told(system) {
        return;
    }
    let text = texts.get(place).copied().unwrap_or(b"");
    if text.starts_with(b"{") {
        tell(
            system,
            &[],
            "`join` reads what `check --part` prints without `--json`",
        );
    } else if text.starts_with(b"part ") && kind_of(&[text]) != kind_of(texts) {
        tell(system, &[], "some reports are of `--bad`, and some are not");
    }
}

/// Says this of the file at this place. What cannot be written is lost.
pub(crate) fn blame(system: &System, text: &[u8], paths: &[&str], place: usize) {
    let path = paths.get(place).copied().unwrap_or("");
    let mut out = FromWrite::new(system.rt().stderr());
    let _ = write_fault(text, path, &mut out);
    let _ = out.flush();
}

fn write_fault<W: Sink>(text: &[u8], path: &str, out: &mut W) -> Result<(), DeviceFault> {
    write_all(out, text)?;
    write_escaped(out, path.as_bytes())?;
    write_all(out, b"\n")
}
