//! What is said of globs that are none.
use globs::GlobFault;
use printing::Fault;
use real_files::System;
use std::io::Write;

/// Says on standard error, as of other arguments that are refused, which glob is none. Gives the
/// exit status. What cannot be written is lost.
pub(crate) fn refuse_globs<'a>(
    system: &System,
    globs: &[&str],
    fault: GlobFault,
) -> Result<u8, Fault<'a>> {
    let mut out = system.rt().stderr();
    let _ = match fault {
        GlobFault::NoMemory => return Err(Fault::NoMemory),
        GlobFault::Malformed(number) => {
            let glob = globs.get(number).copied().unwrap_or("");
            writeln!(
                out,
                "error: invalid value {glob:?} for '--exclude <GLOB>': it is no glob"
            )
        }
    };
    let _ = writeln!(out, "\nFor more information, try '--help'.");
    Ok(2)
}
