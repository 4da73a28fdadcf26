//! The bytes of a file.
use printing::Fault;
use real_files::{Cause, System};
use std::io::{self, Read};

/// The bytes of the file with this path, and of a longer one the first of them.
pub(crate) fn read_bytes<'a>(
    system: &System,
    path: &'a str,
    most: u64,
) -> Result<Vec<u8>, Fault<'a>> {
    let file = system.open(path)?;
    let mut bytes = Vec::new(system.alloc());
    match file.take(most).read_to_end(&mut bytes) {
        Ok(_) => Ok(bytes),
        Err(error) if error.kind() == io::ErrorKind::OutOfMemory => Err(Fault::NoMemory),
        Err(error) => {
            system.note(Cause::Error(error));
            Err(Fault::Read(path))
        }
    }
}
