//! `assemble`: a torrent of what all parts hashed.
use crate::assemble_faults::refuse_assembly;
use crate::file_bytes::read_bytes;
use actions::Assemble;
use benc::FromWrite;
use commands::{creations, outcomes};
use drafts::Draft;
use printing::Fault;
use real_files::{Noted, StandardOutput, System, create_output};
use std::io::BufWriter;

// How many bytes a part may have: 1 GiB, of which the nodes and digests of a torrent of 64 MiB take
// less than a fifth.
const LONGEST_PART: u64 = 1 << 30;

/// Makes a torrent of what all parts hashed. Its file is opened once all parts are read, and stays
/// untouched if it is refused. It is none of the parts. Gives the exit status.
pub(crate) fn perform_assemble<'a>(system: &System, asked: &Assemble<'a>) -> Result<u8, Fault<'a>> {
    let texts = read_parts(system, asked.parts.as_slice())?;
    let slices = texts
        .iter()
        .map(|text| text.as_slice())
        .collect::<Vec<&[u8]>>(system.alloc())?;
    let mut out = StandardOutput::unbuffered(system);
    match creations::assemble(system.alloc(), slices.as_slice(), &mut out)? {
        Ok(Ok(draft)) => write_assembled(system, asked, &draft),
        Ok(Err(status)) => Ok(status),
        Err(fault) => refuse_assembly(system, fault, asked.parts.as_slice()),
    }
}

// The bytes of each part.
fn read_parts<'a>(system: &System, paths: &[&'a str]) -> Result<Vec<Vec<u8>>, Fault<'a>> {
    let mut texts = Vec::new(system.alloc());
    for path in paths {
        let text = read_part(system, path)?;
        if texts.push(text).is_err() {
            return Err(Fault::NoMemory);
        }
    }
    Ok(texts)
}

// The bytes of a part. What is longer than a part may be is none, whatever it begins with: nothing
// of it is kept.
fn read_part<'a>(system: &System, path: &'a str) -> Result<Vec<u8>, Fault<'a>> {
    let text = read_bytes(system, path, LONGEST_PART + 1)?;
    if text.len() as u64 > LONGEST_PART {
        return Ok(Vec::new(system.alloc()));
    }
    Ok(text)
}

fn write_assembled<'a>(
    system: &System,
    asked: &Assemble<'a>,
    draft: &Draft,
) -> Result<u8, Fault<'a>> {
    let file = create_output(system, asked.out, asked.parts.as_slice())?;
    let Ok(buffered) = BufWriter::new(system.alloc(), Noted::new(file, system)) else {
        return Err(Fault::NoMemory);
    };
    let mut out = StandardOutput::unbuffered(system);
    outcomes::write_torrent(draft, asked.out, &mut FromWrite::new(buffered), &mut out)
}
