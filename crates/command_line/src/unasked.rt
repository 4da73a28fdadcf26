//! Why arguments that `clap` takes ask for no action.
ghost use Rattle.std.specs.Prelude.{◌≡◌, ◌↔◌, IfOk, IsTrue};
ghost use Rattle.clap.specs.Simple.{subcommand_rows_of};
ghost use Rattle.clap.specs.Values.{kind_of};
ghost use Rattle.clap.specs.Walk.{rows_of};
ghost use Rattle.clap.specs.Matches.{found_of};
ghost use Rattle.command_line.specs.Reasons.{HasNoOutput, HasTwoOrigins, IsRefusedLength, IsRefusedPart, IsUnaskedKind, IsWhy, IsWhyNoCheck, IsWhyNoTorrent, IsWhyOf, kind_for};

use crate::definition::command_named;
use crate::finding::{is_plain, part_in, text};
use crate::sizes::piece_length_in;
use clap::error::ErrorKind;
use clap::{ArgMatches, Error};
use std::alloc::{AllocError, Global};

// Why nothing is asked for, with the text that is refused.
#[derive(Clone, Copy)]
enum Unasked<'a> {
    // It is no piece length.
    NoLength(&'a str),
    // It is no part.
    NoPart(&'a str),
    // A part of a check is asked for with an option that it has not.
    NotOfParts,
    // A torrent of a folder is asked for, and nothing to write it to.
    NoOutput,
    // A torrent of a file is asked for, and a folder is given too.
    TwoOrigins,
    // None of these.
    NoCommand,
}

/// The error that says why nothing is asked for, with the usage of the command that was found. The
/// other error is out of memory.
pub(crate) fn unasked_error(alloc: Global, matches: &ArgMatches<'_>) -> Result<Error, AllocError>
    ensures { IfOk result (λ e. IsUnaskedKind (subcommand_rows_of matches.now) (kind_of e)) }
{
    let why = why_unasked(matches);
    let message = message(alloc, why)?;
    let mut command = command_named(alloc, name_of(matches))?;
    command.error(kind(why), message.as_str())
}

// The name of the command that was found.
fn name_of<'a>(matches: &'a ArgMatches<'_>) -> &'a str {
    match matches.subcommand() {
        Some((name, _)) => name,
        None => "",
    }
}

// Why nothing is asked for.
fn why_unasked<'a>(matches: &ArgMatches<'a>) -> Unasked<'a>
    ensures { IsWhy (subcommand_rows_of matches.now) result }
{
    match matches.subcommand() {
        Some((name, found)) => why_of(name, found),
        None => Unasked::NoCommand,
    }
}

// Why nothing is asked for by the command of this name.
fn why_of<'a>(name: &str, found: &ArgMatches<'a>) -> Unasked<'a>
    ensures { IsWhyOf name.now (rows_of (found_of found.now)) result }
{
    match name {
        "check" => why_no_check(found),
        "create" => why_no_torrent(found),
        _ => Unasked::NoCommand,
    }
}

// Why nothing is asked for after `check`.
fn why_no_check<'a>(found: &ArgMatches<'a>) -> Unasked<'a>
    ensures { IsWhyNoCheck (rows_of (found_of found.now)) result }
{
    if !is_plain(found) {
        return Unasked::NotOfParts;
    }
    match refused_part(found) {
        Some(text) => Unasked::NoPart(text),
        None => Unasked::NoCommand,
    }
}

// Why nothing is asked for after `create`.
fn why_no_torrent<'a>(found: &ArgMatches<'a>) -> Unasked<'a>
    ensures { IsWhyNoTorrent (rows_of (found_of found.now)) result }
{
    if lacks_output(found) {
        return Unasked::NoOutput;
    }
    if has_two_origins(found) {
        return Unasked::TwoOrigins;
    }
    if let Some(text) = refused_length(found) {
        return Unasked::NoLength(text);
    }
    match refused_part(found) {
        Some(text) => Unasked::NoPart(text),
        None => Unasked::NoCommand,
    }
}

// Whether a folder is given, and nothing to write to.
fn lacks_output(found: &ArgMatches<'_>) -> bool
    ensures { IsTrue result ↔ HasNoOutput (rows_of (found_of found.now)) }
{
    text(found, "file").is_none() && text(found, "OUT").is_none()
}

// Whether a folder is given, and a file too.
fn has_two_origins(found: &ArgMatches<'_>) -> bool
    ensures { IsTrue result ↔ HasTwoOrigins (rows_of (found_of found.now)) }
{
    text(found, "file").is_some() && text(found, "OUT").is_some()
}

// What stands in the place of a piece length and is none.
fn refused_length<'a>(found: &ArgMatches<'a>) -> Option<&'a str>
    ensures { IsRefusedLength (rows_of (found_of found.now)) result }
{
    let text = text(found, "piece-length")?;
    match piece_length_in(text) {
        Some(_) => None,
        None => Some(text),
    }
}

// What stands in the place of a part and is none.
fn refused_part<'a>(found: &ArgMatches<'a>) -> Option<&'a str>
    ensures { IsRefusedPart (rows_of (found_of found.now)) result }
{
    let text = text(found, "part")?;
    match part_in(text) {
        Some(_) => None,
        None => Some(text),
    }
}

// The kind of the error.
fn kind(why: Unasked<'_>) -> ErrorKind
    ensures { result ≡ kind_for why.entry }
{
    match why {
        Unasked::NoLength(_) | Unasked::NoPart(_) => ErrorKind::ValueValidation,
        Unasked::NotOfParts | Unasked::TwoOrigins => ErrorKind::ArgumentConflict,
        Unasked::NoOutput => ErrorKind::MissingRequiredArgument,
        Unasked::NoCommand => ErrorKind::MissingSubcommand,
    }
}

// What the error says.
fn message(alloc: Global, why: Unasked<'_>) -> Result<String, AllocError> {
    match why {
        Unasked::NoLength(text) => format!(in alloc;
            "invalid value {text:?} for '--piece-length <K>': it is not a number of bytes, as \
             65536, 64K, 1M or 1G, nor `auto`"
        ),
        Unasked::NoPart(text) => format!(in alloc;
            "invalid value {text:?} for '--part <I/N>': it is not the number of a part, at least \
             1, and how many there are, as in 1/4"
        ),
        Unasked::NotOfParts => String::from_str(
            alloc,
            "the argument '--part <I/N>' cannot be used with '--quiet', '--extra' or '--summary'",
        ),
        Unasked::NoOutput => String::from_str(
            alloc,
            "the following required arguments were not provided:\n  <OUT>",
        ),
        Unasked::TwoOrigins => String::from_str(
            alloc,
            "the argument '--file <FILE>' cannot be used with a folder: only OUT stands beside it",
        ),
        Unasked::NoCommand => String::from_str(alloc, "a command is missing"),
    }
}
