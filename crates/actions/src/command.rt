//! What the program can be asked for.
ghost use Rattle.std.specs.Prelude.{◌≤◌};

use crate::creation::NewTorrent;

/// What the command line asks for.
#[derive(Drop)]
pub struct Asked<'a> {
    /// What is to be done.
    pub action: Action<'a>,
    /// Whether the system's reasons are printed on standard error, whatever that is.
    pub reasons: bool,
}

/// What is to be done.
#[derive(Drop)]
pub enum Action<'a> {
    /// Print a file's length and pieces root.
    Root {
        /// The file's path.
        file: &'a str,
        /// Whether its lines are printed as JSON objects.
        json: bool,
    },
    /// Print what a torrent holds.
    Show {
        /// The torrent file's path.
        torrent: &'a str,
        /// Whether its lines are printed as JSON objects.
        json: bool,
        /// Whether sums and sizes are printed too.
        long: bool,
    },
    /// Check that a folder holds a torrent's files.
    Check(Check<'a>),
    /// Check one part of that.
    CheckPart(CheckPart<'a>),
    /// Join what all parts of a check reported.
    Join(Join<'a>),
    /// Make a torrent of a folder.
    Create(NewTorrent<'a>),
    /// Hash one part of the files for that.
    CreatePart(NewTorrent<'a>, NumberedPart),
    /// Make a torrent of what all parts hashed.
    Assemble(Assemble<'a>),
    /// Replay the messages that peers sent.
    Replay(Replay<'a>),
    /// Make a record of form 2 of one of form 1.
    Convert(Convert<'a>),
}

/// What is checked, and what is printed of it.
#[derive(Drop)]
pub struct Check<'a> {
    /// The torrent file's path.
    pub torrent: &'a str,
    /// The folder's path.
    pub dir: &'a str,
    /// Whether only what is not good is printed, and the verdict.
    pub quiet: bool,
    /// Whether its lines are printed as JSON objects.
    pub json: bool,
    /// Whether the runs of bad pieces of a file are printed after its line.
    pub bad: bool,
    /// Whether the files are printed that the torrent does not name.
    pub extra: bool,
    /// Whether a summary is printed on standard error.
    pub summary: bool,
}

/// Which part of a check is made.
#[derive(Drop)]
pub struct CheckPart<'a> {
    /// The torrent file's path.
    pub torrent: &'a str,
    /// The folder's path.
    pub dir: &'a str,
    /// The part.
    pub part: NumberedPart,
    /// Whether the runs of bad pieces of a file are printed after its line.
    pub bad: bool,
    /// Whether its lines are printed as JSON objects.
    pub json: bool,
}

/// One of this many parts of a check, or of the making of a torrent. The number is at least 1 and
/// at most the count.
#[derive(Clone, Copy)]
pub struct NumberedPart {
    /// Its number, from 1.
    pub number: u64,
    /// How many parts there are.
    pub count: u64,
    ghost some: { 1 ≤ number },
    ghost there: { number ≤ count },
}

/// Of what torrent the parts of a check are joined, and what they reported.
#[derive(Drop)]
pub struct Join<'a> {
    /// The torrent file's path.
    pub torrent: &'a str,
    /// The paths of the reports.
    pub reports: Vec<&'a str>,
    /// Whether its lines are printed as JSON objects.
    pub json: bool,
}

/// What is assembled, and where it goes.
#[derive(Drop)]
pub struct Assemble<'a> {
    /// The path of the file that takes the torrent.
    pub out: &'a str,
    /// The paths of the parts.
    pub parts: Vec<&'a str>,
}

/// Of what a torrent is made once its piece length is known.
#[derive(Drop)]
pub struct Create<'a> {
    /// The folder's path.
    pub dir: &'a str,
    /// The display name.
    pub name: &'a str,
    /// The piece length in bytes.
    pub piece_length: u64,
    /// Whether it is to serve clients of version 1 too.
    pub hybrid: bool,
}

/// What is replayed, and how.
#[derive(Drop)]
pub struct Replay<'a> {
    /// The torrent file's path.
    pub torrent: &'a str,
    /// The record's path.
    pub record: &'a str,
    /// Whether the torrent's piece layers are left aside at the start.
    pub info_only: bool,
    /// The folder that the session is filled from at the start, if there is one.
    pub seed: Option<&'a str>,
    /// The path of the file that takes the answers, if they are wanted.
    pub answers: Option<&'a str>,
    /// Whether the zeros behind the end of a file are cut away.
    pub padded: bool,
    /// Whether blocks that cannot be proved yet are held until their piece is whole.
    pub pieces: bool,
    /// Whether a summary is printed on standard error.
    pub summary: bool,
    /// Whether its lines are printed as JSON objects.
    pub json: bool,
}

/// What is converted.
#[derive(Drop)]
pub struct Convert<'a> {
    /// The record's path.
    pub record: &'a str,
    /// The path of the file that takes the new record.
    pub out: &'a str,
}
