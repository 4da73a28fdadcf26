//! What can be asked of a torrent that is made.
ghost use Rattle.actions.specs.AutoLength.{IsAutoLength};

// Where nothing else is asked for, a piece has this many bytes at least and at most.
const SHORTEST: u64 = 16_384;

const LONGEST: u64 = 16_777_216;

// And there are this many pieces at most, unless the longest are too short for that.
const MOST_PIECES: u64 = 2_048;

/// Of what a torrent is made, how, and where it goes.
#[derive(Drop)]
pub struct NewTorrent<'a> {
    /// Where its files are.
    pub origin: Origin<'a>,
    /// The path of the file that takes the torrent.
    pub out: &'a str,
    /// The display name.
    pub name: &'a str,
    /// The piece length.
    pub piece_length: PieceLengthChoice,
    /// Whether it is to serve clients of version 1 too.
    pub hybrid: bool,
    /// The globs of what is left out.
    pub exclude: Vec<&'a str>,
    /// Whether a file that is there already is not written.
    pub no_clobber: bool,
    /// Whether the symbolic links in the folder are followed.
    pub follow_symlinks: bool,
    /// Whether what is neither a file nor a folder is left out.
    pub skip_special: bool,
}

/// Where the files of a new torrent are.
#[derive(Clone, Copy, Drop)]
pub enum Origin<'a> {
    /// All of them are in the folder with this path.
    Folder(&'a str),
    /// It is the one file with this path.
    File(&'a str),
}

/// How long the pieces of a new torrent are.
#[derive(Clone, Copy, Drop)]
pub enum PieceLengthChoice {
    /// This many bytes.
    Bytes(u64),
    /// As its files need.
    Auto,
}

/// How many bytes a piece has where the files have this many in all and nothing else is asked for:
/// the smallest power of two from 16 KiB to 16 MiB that leaves 2,048 pieces at most, and 16 MiB if
/// none does.
pub fn auto_length(total: u64) -> u64
    ensures { IsAutoLength total result }
{
    let enough = total.div_ceil(MOST_PIECES).next_power_of_two();
    enough.max(SHORTEST).min(LONGEST)
}
