//! Files that are written, none of which is an input.
ghost use Rattle.std.specs.Prelude.{◌≡◌, IfErr};

use crate::identity::Identity;
use crate::system::{Cause, System};
use printing::Fault;
use std::fs::{self, File};
use std::io::{self, ErrorKind};

/// Opens the file with this path and empties it, unless it is the same file as one of the inputs,
/// by whatever paths: then it stays as it is. The fault is that this path cannot be written.
pub fn create_output<'a>(system: &System, path: &'a str, inputs: &[&str]) -> Result<File, Fault<'a>>
    ensures { IfErr result (λ f. f ≡ Fault.Write path.entry) }
{
    if is_input(system.rt(), path, inputs) {
        system.note(Cause::IsInput);
        return Err(Fault::Write(path));
    }
    match File::create(system.rt(), path) {
        Ok(file) => Ok(file),
        Err(error) => {
            system.note(Cause::Error(error));
            Err(Fault::Write(path))
        }
    }
}

/// The fault that this path cannot be written, if anything has it already.
pub fn refuse_if_there<'a>(system: &System, path: &'a str) -> Result<(), Fault<'a>>
    ensures { IfErr result (λ f. f ≡ Fault.Write path.entry) }
{
    if fs::symlink_metadata(system.rt(), path).is_err() {
        return Ok(());
    }
    system.note(Cause::Error(io::Error::from(ErrorKind::AlreadyExists)));
    Err(Fault::Write(path))
}

/// Makes a file with this path. The fault is that this path cannot be written, also if anything has
/// it already, which then stays as it is.
pub fn create_new_output<'a>(system: &System, path: &'a str) -> Result<File, Fault<'a>>
    ensures { IfErr result (λ f. f ≡ Fault.Write path.entry) }
{
    match File::create_new(system.rt(), path) {
        Ok(file) => Ok(file),
        Err(error) => {
            system.note(Cause::Error(error));
            Err(Fault::Write(path))
        }
    }
}

// Whether what has this path is the same file as one of the inputs.
fn is_input(rt: &HostRuntime, path: &str, inputs: &[&str]) -> bool {
    let output = Identity::at(rt, path);
    output.is_some() && inputs.iter().any(|input| Identity::at(rt, input) == output)
}
