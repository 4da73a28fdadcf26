//! What is found in the arguments.
ghost use Rattle.std.specs.Prelude.{◌↔◌, codes, IfOk, IsFalse, IsTrue};
ghost use Rattle.clap.specs.Simple.{subcommand_rows_of};
ghost use Rattle.clap.specs.Walk.{rows_of};
ghost use Rattle.clap.specs.Matches.{found_of};
ghost use Rattle.command_line.specs.CommandLine.{IsActionOf, IsAskedFor, IsAskedOf};
ghost use Rattle.command_line.specs.Found.{ArePlacesFound, AreTextsUnder, IsFlag, IsNotGiven, IsPieceLengthFound, IsPlain, IsTextIfThere};
ghost use Rattle.command_line.specs.PartTexts.{IsPartIfThere};

use crate::sizes::piece_length_in;
use actions::{
    Action, Asked, Assemble, Check, CheckPart, Convert, Join, NewTorrent, NumberedPart, Origin,
    PieceLengthChoice, Replay,
};
use clap::ArgMatches;
use std::alloc::{AllocError, Global};

/// What the command that was found asks for.
pub(crate) fn asked_in<'a>(
    alloc: Global,
    matches: &ArgMatches<'a>,
) -> Result<Option<Asked<'a>>, AllocError>
    ensures { IfOk result (IsAskedOf (subcommand_rows_of matches.now)) }
{
    match matches.subcommand() {
        Some((name, found)) => asked_of(alloc, name, found),
        None => Ok(None),
    }
}

// What the command of this name asks for, and whether reasons are printed.
fn asked_of<'a>(
    alloc: Global,
    name: &str,
    found: &ArgMatches<'a>,
) -> Result<Option<Asked<'a>>, AllocError>
    ensures { IfOk result (IsAskedFor name.now (rows_of (found_of found.now))) }
{
    let Some(action) = action_of(alloc, name, found)? else {
        return Ok(None);
    };
    let reasons = is_given(found, "reasons");
    Ok(Some(Asked { action, reasons }))
}

// What the command of this name asks for, with what was found in its arguments.
fn action_of<'a>(
    alloc: Global,
    name: &str,
    found: &ArgMatches<'a>,
) -> Result<Option<Action<'a>>, AllocError>
    ensures { IfOk result (IsActionOf name.now (rows_of (found_of found.now))) }
{
    match name {
        "root" => Ok(root_of(found)),
        "show" => Ok(show_of(found)),
        "check" => Ok(whole_or_part_of(found)),
        "join" => Ok(join_of(found, texts(alloc, found, "REPORT")?)),
        "create" => Ok(create_of(found, texts(alloc, found, "exclude")?)),
        "assemble" => Ok(assemble_of(found, texts(alloc, found, "PART")?)),
        "replay" => Ok(replay_of(found)),
        "convert" => Ok(convert_of(found)),
        _ => Ok(None),
    }
}

// What the arguments after `root` ask for.
fn root_of<'a>(found: &ArgMatches<'a>) -> Option<Action<'a>>
    ensures { IsActionOf (codes "root") (rows_of (found_of found.now)) result }
{
    let file = text(found, "FILE")?;
    Some(Action::Root {
        file,
        json: is_given(found, "json"),
    })
}

// What the arguments after `show` ask for.
fn show_of<'a>(found: &ArgMatches<'a>) -> Option<Action<'a>>
    ensures { IsActionOf (codes "show") (rows_of (found_of found.now)) result }
{
    let torrent = text(found, "TORRENT")?;
    Some(Action::Show {
        torrent,
        json: is_given(found, "json"),
        long: is_given(found, "long"),
    })
}

// What the arguments after `check` ask for.
fn whole_or_part_of<'a>(found: &ArgMatches<'a>) -> Option<Action<'a>>
    ensures { IsActionOf (codes "check") (rows_of (found_of found.now)) result }
{
    let torrent = text(found, "TORRENT")?;
    let dir = text(found, "DIR")?;
    match text(found, "part") {
        None => Some(Action::Check(Check {
            torrent,
            dir,
            quiet: is_given(found, "quiet"),
            json: is_given(found, "json"),
            bad: is_given(found, "bad"),
            extra: is_given(found, "extra"),
            summary: is_given(found, "summary"),
        })),
        Some(part) if is_plain(found) => {
            let part = part_in(part)?;
            Some(Action::CheckPart(CheckPart {
                torrent,
                dir,
                part,
                bad: is_given(found, "bad"),
                json: is_given(found, "json"),
            }))
        }
        Some(_) => None,
    }
}

/// Whether none of the options is given that a part of a check has not.
pub(crate) fn is_plain(found: &ArgMatches<'_>) -> bool
    ensures { IsTrue result ↔ IsPlain (rows_of (found_of found.now)) }
{
    !(is_true(found, "quiet") || is_true(found, "extra") || is_true(found, "summary"))
}

// Whether the option with this name is given.
fn is_true(found: &ArgMatches<'_>, name: &str) -> bool
    ensures { IsFalse result ↔ IsNotGiven name.now (rows_of (found_of found.now)) }
{
    text(found, name) == Some("true")
}

/// The part that a text names.
pub(crate) fn part_in(text: &str) -> Option<NumberedPart>
    ensures { IsPartIfThere text.now result }
{
    let (number, count) = text.split_once('/')?;
    let part = NumberedPart {
        number: number.parse::<u64>().ok()?,
        count: count.parse::<u64>().ok()?,
    };
    if 1 <= part.number && part.number <= part.count {
        Some(part)
    } else {
        None
    }
}

// What the arguments after `join` ask for.
fn join_of<'a>(found: &ArgMatches<'a>, reports: Vec<&'a str>) -> Option<Action<'a>>
    requires { AreTextsUnder (codes "REPORT") (rows_of (found_of found.now)) reports.items }
    ensures { IsActionOf (codes "join") (rows_of (found_of found.now)) result }
{
    let torrent = text(found, "TORRENT")?;
    Some(Action::Join(Join {
        torrent,
        reports,
        json: is_given(found, "json"),
    }))
}

// What the arguments after `create` ask for.
fn create_of<'a>(found: &ArgMatches<'a>, exclude: Vec<&'a str>) -> Option<Action<'a>>
    requires { AreTextsUnder (codes "exclude") (rows_of (found_of found.now)) exclude.items }
    ensures { IsActionOf (codes "create") (rows_of (found_of found.now)) result }
{
    let (origin, out) = places(found)?;
    let name = text(found, "name")?;
    let piece_length = piece_length(found)?;
    let asked = NewTorrent {
        origin,
        out,
        name,
        piece_length,
        hybrid: is_given(found, "hybrid"),
        exclude,
        no_clobber: is_given(found, "no-clobber"),
        follow_symlinks: is_given(found, "follow-symlinks"),
        skip_special: is_given(found, "skip-special"),
    };
    match text(found, "part") {
        None => Some(Action::Create(asked)),
        Some(part) => Some(Action::CreatePart(asked, part_in(part)?)),
    }
}

// Where the files of a new torrent are, and where it goes.
fn places<'a>(found: &ArgMatches<'a>) -> Option<(Origin<'a>, &'a str)>
    ensures { ArePlacesFound (rows_of (found_of found.now)) result }
{
    let first = text(found, "DIR")?;
    let second = text(found, "OUT");
    match text(found, "file") {
        None => Some((Origin::Folder(first), second?)),
        Some(file) if second.is_none() => Some((Origin::File(file), first)),
        Some(_) => None,
    }
}

// What the arguments after `assemble` ask for.
fn assemble_of<'a>(found: &ArgMatches<'a>, parts: Vec<&'a str>) -> Option<Action<'a>>
    requires { AreTextsUnder (codes "PART") (rows_of (found_of found.now)) parts.items }
    ensures { IsActionOf (codes "assemble") (rows_of (found_of found.now)) result }
{
    let out = text(found, "OUT")?;
    Some(Action::Assemble(Assemble { out, parts }))
}

// The piece length that was found.
fn piece_length(found: &ArgMatches<'_>) -> Option<PieceLengthChoice>
    ensures { IsPieceLengthFound (codes "piece-length") (rows_of (found_of found.now)) result }
{
    piece_length_in(text(found, "piece-length")?)
}

// What the arguments after `convert` ask for.
fn convert_of<'a>(found: &ArgMatches<'a>) -> Option<Action<'a>>
    ensures { IsActionOf (codes "convert") (rows_of (found_of found.now)) result }
{
    let record = text(found, "RECORD")?;
    let out = text(found, "OUT")?;
    Some(Action::Convert(Convert { record, out }))
}

// What the arguments after `replay` ask for.
fn replay_of<'a>(found: &ArgMatches<'a>) -> Option<Action<'a>>
    ensures { IsActionOf (codes "replay") (rows_of (found_of found.now)) result }
{
    let torrent = text(found, "TORRENT")?;
    let record = text(found, "RECORD")?;
    Some(Action::Replay(Replay {
        torrent,
        record,
        info_only: is_given(found, "info-only"),
        seed: text(found, "seed"),
        answers: text(found, "answers"),
        padded: is_given(found, "padded"),
        pieces: is_given(found, "pieces"),
        summary: is_given(found, "summary"),
        json: is_given(found, "json"),
    }))
}

/// The text that was found under this name.
pub(crate) fn text<'a>(found: &ArgMatches<'a>, name: &str) -> Option<&'a str>
    ensures { IsTextIfThere name.now (rows_of (found_of found.now)) result }
{
    found.get_str(name)
}

// All texts that were found under this name.
fn texts<'a>(alloc: Global, found: &ArgMatches<'a>, name: &str) -> Result<Vec<&'a str>, AllocError>
    ensures { IfOk result
        (λ texts. AreTextsUnder name.now (rows_of (found_of found.now)) texts.items) }
{
    match found.get_strs(name) {
        Some(texts) => Ok(Vec::from_slice(alloc, texts)?),
        None => Ok(Vec::new(alloc)),
    }
}

// Whether the option with this name was found.
fn is_given(found: &ArgMatches<'_>, name: &str) -> bool
    ensures { IsFlag name.now (rows_of (found_of found.now)) result }
{
    found.get_flag(name)
}
