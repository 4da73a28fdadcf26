//! The command line, by `clap`.
ghost use Rattle.std.specs.List.{AllZip};
ghost use Rattle.std.specs.Prelude.{◌≡◌, IfOk, map};
ghost use Rattle.command_line.specs.CommandLine.{IsApp, IsArgument, IsLeaf, program};
ghost use Rattle.command_line.specs.Table.{action_for, leaf_of, needs, rule_for};

use crate::help::{
    ABOUT, ANSWERS_HELP, ASSEMBLE_ABOUT, ASSEMBLE_HELP, BAD_HELP, CHECK_ABOUT, CHECK_HELP,
    CONVERT_ABOUT, CONVERT_HELP, CREATE_ABOUT, CREATE_DIR_HELP, CREATE_HELP, CREATE_PART_HELP,
    EXAMPLES, EXCLUDE_HELP, EXTRA_HELP, FILE_HELP, FOLLOW_SYMLINKS_HELP, HYBRID_HELP,
    INFO_ONLY_HELP, JOIN_ABOUT, JOIN_HELP, JSON_HELP, LONG_HELP, NAME_HELP, NO_CLOBBER_HELP,
    PADDED_HELP, PART_HELP, PIECE_LENGTH_HELP, PIECES_HELP, QUIET_HELP, REASONS_HELP, REPLAY_ABOUT,
    REPLAY_HELP, REPLAYED_HELP, ROOT_ABOUT, ROOT_HELP, SEED_HELP, SHOW_ABOUT, SHOW_HELP,
    SKIP_SPECIAL_HELP, STATUSES, SUMMARY_HELP, VERSION,
};
use Kind::{Flag, ShortFlag, ShortText, Text, Word};
use Times::{Any, AtLeastOnce, AtMostOnce, Once};
use clap::{Arg, ArgAction, Command};
use std::alloc::{AllocError, Global};

// A command without commands below it.
#[derive(Clone, Copy)]
struct Subcommand<'a> {
    name: &'a str,
    // What help says of it.
    texts: Texts,
    arguments: &'a [Argument<'a>],
}

// Which command help speaks of. Its texts stand apart from the table, whose value is computed in
// each proof that reads it.
#[derive(Clone, Copy)]
enum Texts {
    Root,
    Show,
    Check,
    Join,
    Create,
    Assemble,
    Replay,
    Convert,
}

impl Texts {
    // What it does.
    fn in_short(self) -> &'static str {
        match self {
            Texts::Root => ROOT_ABOUT,
            Texts::Show => SHOW_ABOUT,
            Texts::Check => CHECK_ABOUT,
            Texts::Join => JOIN_ABOUT,
            Texts::Create => CREATE_ABOUT,
            Texts::Assemble => ASSEMBLE_ABOUT,
            Texts::Replay => REPLAY_ABOUT,
            Texts::Convert => CONVERT_ABOUT,
        }
    }

    // More help on it.
    fn at_length(self) -> &'static str {
        match self {
            Texts::Root => ROOT_HELP,
            Texts::Show => SHOW_HELP,
            Texts::Check => CHECK_HELP,
            Texts::Join => JOIN_HELP,
            Texts::Create => CREATE_HELP,
            Texts::Assemble => ASSEMBLE_HELP,
            Texts::Replay => REPLAY_HELP,
            Texts::Convert => CONVERT_HELP,
        }
    }
}

// An argument: its name, what it is, how often it is there, and what it means.
type Argument<'a> = (&'a str, Kind<'a>, Times, &'a str);

// What an argument is. The text is the name of its value in help.
#[derive(Clone, Copy)]
enum Kind<'a> {
    // A word without a name before it.
    Word,
    // An option without a value.
    Flag,
    // The same, which has a letter too.
    ShortFlag(char),
    // An option with a text.
    Text(&'a str),
    // The same, which has a letter too.
    ShortText(char, &'a str),
}

// How often an argument is there.
#[derive(Clone, Copy)]
enum Times {
    AtMostOnce,
    Once,
    AtLeastOnce,
    Any,
}

// All commands, in the order of help.
const COMMANDS: &[Subcommand<'static>] = &[
    Subcommand {
        name: "root",
        texts: Texts::Root,
        arguments: &[
            ("FILE", Word, Once, "The file to hash"),
            ("json", ShortFlag('j'), AtMostOnce, JSON_HELP),
            ("reasons", Flag, AtMostOnce, REASONS_HELP),
        ],
    },
    Subcommand {
        name: "show",
        texts: Texts::Show,
        arguments: &[
            ("TORRENT", Word, Once, "The torrent file"),
            ("long", Flag, AtMostOnce, LONG_HELP),
            ("json", ShortFlag('j'), AtMostOnce, JSON_HELP),
            ("reasons", Flag, AtMostOnce, REASONS_HELP),
        ],
    },
    Subcommand {
        name: "check",
        texts: Texts::Check,
        arguments: &[
            ("TORRENT", Word, Once, "The torrent file"),
            ("DIR", Word, Once, "The folder that holds the files"),
            ("quiet", ShortFlag('q'), AtMostOnce, QUIET_HELP),
            ("bad", Flag, AtMostOnce, BAD_HELP),
            ("extra", Flag, AtMostOnce, EXTRA_HELP),
            ("summary", Flag, AtMostOnce, SUMMARY_HELP),
            ("part", Text("I/N"), AtMostOnce, PART_HELP),
            ("json", ShortFlag('j'), AtMostOnce, JSON_HELP),
            ("reasons", Flag, AtMostOnce, REASONS_HELP),
        ],
    },
    Subcommand {
        name: "join",
        texts: Texts::Join,
        arguments: &[
            ("TORRENT", Word, Once, "The torrent file"),
            (
                "REPORT",
                Word,
                AtLeastOnce,
                "What each part of the check printed",
            ),
            ("json", ShortFlag('j'), AtMostOnce, JSON_HELP),
            ("reasons", Flag, AtMostOnce, REASONS_HELP),
        ],
    },
    Subcommand {
        name: "create",
        texts: Texts::Create,
        arguments: &[
            ("DIR", Word, Once, CREATE_DIR_HELP),
            ("OUT", Word, AtMostOnce, "The torrent file that is written"),
            ("file", Text("FILE"), AtMostOnce, FILE_HELP),
            ("name", Text("N"), Once, NAME_HELP),
            ("piece-length", Text("K"), Once, PIECE_LENGTH_HELP),
            ("hybrid", Flag, AtMostOnce, HYBRID_HELP),
            ("exclude", Text("GLOB"), Any, EXCLUDE_HELP),
            ("follow-symlinks", Flag, AtMostOnce, FOLLOW_SYMLINKS_HELP),
            ("skip-special", Flag, AtMostOnce, SKIP_SPECIAL_HELP),
            ("no-clobber", Flag, AtMostOnce, NO_CLOBBER_HELP),
            ("part", Text("I/N"), AtMostOnce, CREATE_PART_HELP),
            ("reasons", Flag, AtMostOnce, REASONS_HELP),
        ],
    },
    Subcommand {
        name: "assemble",
        texts: Texts::Assemble,
        arguments: &[
            ("OUT", Word, Once, "The torrent file that is written"),
            ("PART", Word, AtLeastOnce, "What each `create --part` wrote"),
            ("reasons", Flag, AtMostOnce, REASONS_HELP),
        ],
    },
    Subcommand {
        name: "replay",
        texts: Texts::Replay,
        arguments: &[
            ("TORRENT", Word, Once, "The torrent file"),
            ("RECORD", Word, Once, "The record, a file or a pipe"),
            ("info-only", Flag, AtMostOnce, INFO_ONLY_HELP),
            ("seed", Text("DIR"), AtMostOnce, SEED_HELP),
            ("answers", ShortText('o', "OUT"), AtMostOnce, ANSWERS_HELP),
            ("padded", Flag, AtMostOnce, PADDED_HELP),
            ("pieces", Flag, AtMostOnce, PIECES_HELP),
            ("summary", Flag, AtMostOnce, REPLAYED_HELP),
            ("json", ShortFlag('j'), AtMostOnce, JSON_HELP),
            ("reasons", Flag, AtMostOnce, REASONS_HELP),
        ],
    },
    Subcommand {
        name: "convert",
        texts: Texts::Convert,
        arguments: &[
            ("RECORD", Word, Once, "The record, a file or a pipe"),
            ("OUT", Word, Once, "The record that is written"),
            ("reasons", Flag, AtMostOnce, REASONS_HELP),
        ],
    },
];

/// The program's command, with its subcommands.
pub(crate) fn command<'a>(alloc: Global) -> Result<Command<'a>, AllocError>
    ensures { IfOk result (IsApp program) }
{
    let leaves = leaves(alloc, rows())?;
    Command::new(alloc, "btcheck")
        .version(VERSION)
        .about(ABOUT)
        .after_help(STATUSES)
        .after_long_help(EXAMPLES)
        .subcommand_required(true)
        .subcommands(leaves)
}

/// The command of this name as it stands behind the program's, for what is said of its arguments;
/// the program's own if there is none.
pub(crate) fn command_named<'a>(alloc: Global, name: &str) -> Result<Command<'a>, AllocError> {
    for row in rows() {
        if row.name == name {
            let usage_name = format!(in alloc; "btcheck {name}")?;
            return leaf(alloc, row)?.bin_name(usage_name.as_str());
        }
    }
    command(alloc)
}

// The table, whose rows are the program's commands.
fn rows() -> &'static [Subcommand<'static>]
    ensures { map leaf_of result.now ≡ program.subs }
{
    COMMANDS
}

// The commands of these rows.
fn leaves<'a>(alloc: Global, rows: &[Subcommand<'a>]) -> Result<Vec<Command<'a>>, AllocError>
    ensures { IfOk result (λ leaves. AllZip IsLeaf (map leaf_of rows.now) leaves.items) }
{
    let mut leaves = Vec::with_capacity(alloc, rows.len())?;
    for row in rows {
        leaves.push_reserved(leaf(alloc, row)?);
    }
    Ok(leaves)
}

// A command without commands below it.
fn leaf<'a>(alloc: Global, row: &Subcommand<'a>) -> Result<Command<'a>, AllocError>
    ensures { IfOk result (IsLeaf (leaf_of row.now)) }
{
    let mut command = Command::new(alloc, row.name)
        .about(row.texts.in_short())
        .after_help(row.texts.at_length());
    for &(name, kind, times, help) in row.arguments {
        command = command.arg(arg(alloc, name, kind, times, help))?;
    }
    Ok(command)
}

// One argument of a command.
fn arg<'a>(alloc: Global, name: &'a str, kind: Kind<'a>, times: Times, help: &'a str) -> Arg<'a>
    ensures { IsArgument (rule_for name.entry.now kind.entry times) result }
{
    let argument = Arg::new(alloc, name)
        .required(is_needed(times))
        .action(action(times))
        .help(help);
    match kind {
        Kind::Word => argument,
        Kind::Flag => argument.long(name).action(ArgAction::SetTrue),
        Kind::ShortFlag(letter) => argument.long(name).short(letter).action(ArgAction::SetTrue),
        Kind::Text(value) => argument.long(name).value_name(value),
        Kind::ShortText(letter, value) => argument.long(name).short(letter).value_name(value),
    }
}

// Whether an argument has to be there.
fn is_needed(times: Times) -> bool
    ensures { result ≡ needs times }
{
    matches!(times, Times::Once | Times::AtLeastOnce)
}

// What becomes of the values: each use adds one, or there is one alone.
fn action(times: Times) -> ArgAction
    ensures { result ≡ action_for times }
{
    match times {
        Times::AtLeastOnce | Times::Any => ArgAction::Append,
        _ => ArgAction::Set,
    }
}
