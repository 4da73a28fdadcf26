//! What people are told who may mean something else.
use benc::{FromWrite, Value, decode};
use filetree::{Key, Refusal};
use printing::write_escaped;
use real_files::System;
use std::io::{IsTerminal, Write};

/// Tells on standard error if these bytes were refused since they are a torrent of version 1 alone.
pub(crate) fn hint_at_version(system: &System, bytes: &[u8], refusal: &Refusal) {
    if matches!(refusal, Refusal::Missing(Key::MetaVersion))
        && are_told(system)
        && has_pieces(system, bytes)
    {
        tell(
            system,
            &["of version 1 alone:"],
            "only version 2 and hybrids are read",
        );
    }
}

/// Whether hints are told: standard error is a terminal, or reasons are asked for.
pub(crate) fn are_told(system: &System) -> bool {
    system.shows_reasons() || system.rt().stderr().is_terminal()
}

/// Tells a hint of these words, with spaces between them. What cannot be written is lost.
pub(crate) fn tell(system: &System, words: &[&str], last: &str) {
    let _ = system.rt().stderr().write_all(b"hint: ");
    'words: for word in words {
        put_escaped(system, word);
        let _ = system.rt().stderr().write_all(b" ");
    }
    put_escaped(system, last);
    let _ = system.rt().stderr().write_all(b"\n");
}

fn put_escaped(system: &System, text: &str) {
    let _ = write_escaped(&mut FromWrite::new(system.rt().stderr()), text.as_bytes());
}

// Whether these bytes have the pieces of a torrent of version 1.
fn has_pieces(system: &System, bytes: &[u8]) -> bool {
    let Ok(top) = decode(system.alloc(), bytes) else {
        return false;
    };
    match top.get(b"info") {
        Some(info) => matches!(info.get(b"pieces"), Some(Value::Bytes(_))),
        None => false,
    }
}
