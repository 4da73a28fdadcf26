//! What the program says of arguments that ask for no action.
ghost use Rattle.std.specs.Prelude.{◌≡◌, ◌≢◌, ◌⊎◌, ◌↔◌, Err, IfOk};
ghost use Rattle.clap.specs.Values.{kind_of};
ghost use Rattle.clap.specs.declared.error.kind.ErrorKind.TheVariants.{OutOfMemory};
ghost use Rattle.command_line.specs.ErrorKinds.{IsHelpOrVersion};
ghost use Rattle.command_line.specs.declared.explaining.ExplainFault.TheVariants.{NoMemory, Write};

use clap::Error;
use clap::error::ErrorKind;

/// Why it could not be printed.
#[derive(Debug, Drop, thiserror::Error)]
pub enum ExplainFault {
    /// Out of memory while the arguments were read.
    #[error("no memory")]
    NoMemory,
    /// Help or the version could not be written to standard output.
    #[error("cannot write -")]
    Write,
}

/// Prints the help or the version that the arguments ask for, or on standard error why they were
/// refused. Gives the exit status. What cannot be written to standard error is lost.
pub fn explain(rt: &HostRuntime, error: &Error) -> Result<u8, ExplainFault>
    ensures shown { IsHelpOrVersion (kind_of error.now) → IfOk result (λ s. s ≡ 0) }
    ensures refused { (IsHelpOrVersion (kind_of error.now) → ⊥) → IfOk result (λ s. s ≡ 2) }
    ensures no_memory { (kind_of error.now ≡ OutOfMemory) ↔ (result ≡ Err NoMemory) }
    ensures write { result ≡ Err Write → IsHelpOrVersion (kind_of error.now) }
{
    if error.kind() == ErrorKind::OutOfMemory {
        return Err(ExplainFault::NoMemory);
    }
    let printed = error.print(rt);
    match error.use_stderr() {
        true => Ok(2),
        false if printed.is_ok() => Ok(0),
        false => Err(ExplainFault::Write),
    }
}
