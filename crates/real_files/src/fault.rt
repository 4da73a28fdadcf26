//! What ends the program with status 2.
ghost use Rattle.std.specs.Prelude.{◌≡◌};
ghost use Rattle.std.specs.Process.{exit_status};

use crate::place::print_place;
use crate::system::System;
use benc::FromWrite;
use printing::{Fault, fault_line, write_escaped};
use std::io::{IsTerminal, Write};
use std::process::ExitCode;

/// Prints the fault's line on standard error, and on a terminal, or if reasons are asked for, a
/// line with the reason behind it, if the system gave one. Gives the exit status of a fault. What
/// cannot be written is lost.
pub fn print_fault(system: &System, fault: &Fault<'_>) -> ExitCode
    ensures { exit_status result ≡ 2 }
{
    let _ = fault_line(fault, &mut FromWrite::new(system.rt().stderr()));
    print_reason(system, fault);
    ExitCode::from(2)
}

/// Prints on standard error why the file with this path was not read, if reasons are asked for and
/// the system gave one. What cannot be written is lost.
pub(crate) fn print_reason_of(system: &System, path: &str) {
    if !system.shows_reasons() {
        return;
    }
    let Some(cause) = system.cause() else {
        return;
    };
    begin_reason(system, path);
    let _ = writeln!(system.rt().stderr(), "{cause}");
}

/// Prints on standard error that what follows is the reason of what is said of the file with this
/// path. What cannot be written is lost.
pub(crate) fn begin_reason(system: &System, path: &str) {
    let _ = system.rt().stderr().write_all(b"reason: ");
    let _ = write_escaped(&mut FromWrite::new(system.rt().stderr()), path.as_bytes());
    let _ = system.rt().stderr().write_all(b": ");
}

// Prints why a file could not be read or written, on a terminal or if reasons are asked for.
fn print_reason(system: &System, fault: &Fault<'_>) {
    let is_shown = system.shows_reasons() || system.rt().stderr().is_terminal();
    if !has_reason(fault) || !is_shown {
        return;
    }
    let Some(cause) = system.cause() else {
        return;
    };
    let _ = system.rt().stderr().write_all(b"reason: ");
    if let Some(place) = system.take_place() {
        print_place(system, place.as_slice());
        let _ = system.rt().stderr().write_all(b": ");
    }
    let _ = writeln!(system.rt().stderr(), "{cause}{}", hint(fault));
}

// What may be meant by the path of a fault, if it is one that other programs have for a stream.
fn hint(fault: &Fault<'_>) -> &'static str {
    match fault {
        Fault::Read("-") => "; /dev/stdin is standard input",
        _ => "",
    }
}

// Whether a fault may have a reason.
fn has_reason(fault: &Fault<'_>) -> bool {
    matches!(
        fault,
        Fault::Read(_) | Fault::ReadBelow(_) | Fault::Write(_) | Fault::NotUtf8 | Fault::Special(_)
    )
}
