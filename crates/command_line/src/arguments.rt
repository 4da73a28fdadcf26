//! From arguments to what they ask for.
ghost use Rattle.std.specs.Prelude.{◌≡◌, ◌⊎◌, IfErr, IfOk, map, true};
ghost use Rattle.clap.specs.Simple.{subcommand_rows_of};
ghost use Rattle.clap.specs.Takes.{takes};
ghost use Rattle.clap.specs.Values.{kind_of};
ghost use Rattle.clap.specs.declared.error.kind.ErrorKind.TheVariants.{OutOfMemory};
ghost use Rattle.actions.specs.declared.command.Asked.{Asked};
ghost use Rattle.command_line.specs.CommandLine.{IsAskedBy, IsAskedIn, IsFoundIn, IsNothing, IsRefusalOf, program};
ghost use Rattle.command_line.specs.Reasons.{IsUnaskedKind};

use crate::definition::command;
use crate::finding::asked_in;
use crate::unasked::unasked_error;
use actions::Asked;
use clap::{ArgMatches, Error};
use std::alloc::Global;

/// Reads the command line, whose first argument is the program's name. The error is `clap`'s, of
/// one of the kinds that its own definition gives for the arguments: help or the version was asked
/// for, the first argument that is wrong, or out of memory; or the part of `check` is none, or is
/// given with an option that it has not, or the part or the piece length of `create` is none: the
/// kind says which. `explain` prints it.
pub fn action<'a>(alloc: Global, line: &'a [&'a str]) -> Result<Asked<'a>, Error>
    ensures asked { IfOk result (IsAskedBy (map (λ s. s.now) line.now)) }
    ensures refused { IfErr result (λ e. IsRefusalOf (map (λ s. s.now) line.now) (kind_of e)) }
    ensures memory { IfErr result (λ e. takes program (map (λ s. s.now) line.now) ≡ true
        → (asked : Asked) → IsFoundIn (map (λ s. s.now) line.now) asked
        → kind_of e ≡ OutOfMemory) }
{
    let matches = command(alloc)?.try_get_matches_from(line)?;
    action_in(alloc, &matches)
}

// What was found, or the error that says why nothing is asked for.
fn action_in<'a>(alloc: Global, matches: &ArgMatches<'a>) -> Result<Asked<'a>, Error>
    ensures asked { IfOk result (IsAskedIn (subcommand_rows_of matches.now)) }
    ensures refused { IfErr result (λ e. (kind_of e ≡ OutOfMemory)
        ⊎ (IsUnaskedKind (subcommand_rows_of matches.now) (kind_of e)
        × IsNothing (subcommand_rows_of matches.now))) }
{
    match asked_in(alloc, matches)? {
        Some(asked) => Ok(asked),
        None => Err(unasked_error(alloc, matches)?),
    }
}
