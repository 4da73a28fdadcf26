//! Where a fault was, and what is left out, as they are printed on standard error. What cannot be
//! written is lost.
use crate::system::System;
use benc::FromWrite;
use printing::{write_escaped, write_path};
use std::io::Write;
use std::str;

/// Prints a path of the file system: its text as all texts are printed, and each byte that is not
/// UTF-8 as `\\x` and two hexadecimal digits.
pub(crate) fn print_place(system: &System, path: &[u8]) {
    let mut rest = path;
    for _ in 0..path.len() {
        let Err(error) = str::from_utf8(rest) else {
            break;
        };
        let (text, others) = rest.split_at(error.valid_up_to());
        print_text(system, text);
        let Some((byte, others)) = others.split_first() else {
            return;
        };
        let _ = write!(system.rt().stderr(), "\\x{byte:02x}");
        rest = others;
    }
    print_text(system, rest);
}

fn print_text(system: &System, text: &[u8]) {
    let _ = write_escaped(&mut FromWrite::new(system.rt().stderr()), text);
}

/// Prints that what has these path components is left out.
pub(crate) fn print_left_out(system: &System, path: &[String]) {
    let _ = system.rt().stderr().write_all(b"left out: ");
    let _ = write_path(&mut FromWrite::new(system.rt().stderr()), path);
    let _ = system.rt().stderr().write_all(b"\n");
}
