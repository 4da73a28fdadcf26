//! What help says.

pub(crate) const VERSION: &str = "1.1.0~dev (proved with logic dac8208d650f15bf)";

pub(crate) const ABOUT: &str =
    "Checks BitTorrent version 2: torrents, folders and messages of peers";

pub(crate) const STATUSES: &str = "\
Exit status: 0 yes or done, 1 no or refused, 2 a fault of the arguments, of files or of memory.";

pub(crate) const EXAMPLES: &str = "\
Examples:
  btcheck root movie.mkv                     the length and pieces root of a file
  btcheck show some.torrent                  what a torrent holds
  btcheck check some.torrent Downloads/some  whether a folder holds it
  btcheck check some.torrent Downloads/some --part 1/4
                                             the first of four parts of that
  btcheck join some.torrent part1 part2 part3 part4
                                             whether all parts together hold it
  btcheck create some some.torrent --name some --piece-length 1048576
                                             makes a torrent of a folder
  btcheck create --file movie.mkv movie.torrent --name movie.mkv --piece-length auto
                                             makes a torrent of one file
  btcheck create some part1 --name some --piece-length 1048576 --part 1/4
                                             hashes the first of four parts for that
  btcheck assemble some.torrent part1 part2 part3 part4
                                             makes the torrent of all parts
  btcheck convert record directed            gives each frame of a record its direction
  btcheck replay some.torrent record         which blocks of recorded messages are right

Exit status:
  0  yes, or done
  1  no, or refused
  2  a fault of the arguments, of files or of memory: a line on standard error says which

Faults, and what to do:
  fault: cannot read PATH             it is missing, a folder, or not yours to read
  fault: cannot write PATH            the disk is full, PATH is not yours to write, or is an input
  fault: name is not UTF-8            give the file a name in UTF-8
  fault: not a file or folder: PATH   give --exclude, --follow-symlinks or --skip-special
  fault: record is truncated: PATH    it ends inside a frame; the frames before are in OUT
  fault: part I of N is missing       run it, or give its report to `join` too
  fault: part I is there twice        give one of the two reports
  fault: no whole report of a part: PATH
                                      it was cut or changed: run the part again; or it has `--bad`
                                      and others have not, or all have `--json`
  fault: no whole part: PATH          it was cut or changed: hash the part again
  fault: part I is of another folder  a file came, went or grew between the parts: hash them again
  fault: a part of another number of parts: PATH
                                      give the parts of one division alone
  fault: a part of another torrent: PATH
                                      give the torrent that was checked
  fault: a report of another number of parts: PATH
                                      give the reports of one division alone
  fault: no memory                    raise the limit (`ulimit -v`), or run fewer at once

Each refusal has a number and a name; `man btcheck` explains them.";

pub(crate) const ROOT_ABOUT: &str = "Prints the length and the pieces root of a file";

pub(crate) const ROOT_HELP: &str = "\
Prints `LENGTH ROOT`, or `0 -` for an empty file. FILE may be a pipe.
A file of more than 2^46 bytes prints `refused 10 Length`, status 1.";

pub(crate) const SHOW_ABOUT: &str =
    "Prints what a torrent holds: name, info-hashes, files and their roots";

pub(crate) const SHOW_HELP: &str = "\
Prints name, piece length, info-hashes, and for each file `LENGTH ROOT PATH`.
A file that is not a version 2 torrent prints `refused NUMBER NAME`, status 1.";

pub(crate) const CHECK_ABOUT: &str = "Checks that a folder holds a torrent's files";

pub(crate) const CHECK_HELP: &str = "\
Prints for each file `good`, `missing`, `unreadable`, `wrong length` or `bad PIECE`, for a hybrid a
line on its version 1 pieces, and at last `yes`, status 0, or `no`, status 1. Each file's line is
printed as soon as the file is done. The files are looked for at their paths directly below DIR; the
torrent's name adds no folder.";

pub(crate) const QUIET_HELP: &str = "Print only what is not good, and the last line";

pub(crate) const BAD_HELP: &str =
    "After each file that is bad or of another length, print its runs of bad pieces";

pub(crate) const PART_HELP: &str =
    "Check part I of N alone, and print what `join` needs of it; 1 is the first";

pub(crate) const JOIN_ABOUT: &str = "Joins the reports of all parts of a check";

pub(crate) const JOIN_HELP: &str = "\
A REPORT is what `btcheck check TORRENT DIR --part I/N` printed; the reports of all N parts are
needed, in any order. Prints what one `btcheck check TORRENT DIR` prints, with its status.";

pub(crate) const JSON_HELP: &str =
    "Print each line as a JSON object (in btcheck-many `-j` is how many run at once)";

pub(crate) const CREATE_ABOUT: &str = "Makes a torrent of all files in a folder, or of one file";

pub(crate) const CREATE_HELP: &str = "\
Hashes all files below DIR, hidden ones too, then writes the torrent to OUT and prints nothing.
For one file: `btcheck create --file FILE OUT ..`, without DIR.
A folder that cannot be a torrent prints `refused NUMBER NAME`, and the path of the file, status 1.
Symbolic links, pipes and devices in DIR are a fault, but for those that an option speaks of.
In a GLOB `*` and `?` match no `/`, `**` does, `[a-z]` and `[!a-z]` are one character, and `\\`
makes the next one plain. Without a `/`, or with one at its end alone, it matches at any depth.";

pub(crate) const CREATE_PART_HELP: &str =
    "Hash part I of N alone, and write to OUT what `assemble` needs of it; 1 is the first";

pub(crate) const ASSEMBLE_ABOUT: &str = "Assembles a torrent of what all parts hashed";

pub(crate) const ASSEMBLE_HELP: &str = "\
A PART is what `btcheck create DIR PART --part I/N` wrote; the files of all N parts are needed, in
any order. Writes to OUT the torrent that `btcheck create` writes without `--part`, or prints what
that prints, with its status. OUT cannot be a PART.";

pub(crate) const CONVERT_ABOUT: &str = "Adds directions to a record that has none";

pub(crate) const CONVERT_HELP: &str = "\
Writes a record in which each frame has a direction. It marks every frame of RECORD as incoming, and
adds before each hashes message, as outgoing, the request that it answers. OUT is emptied first; it
cannot be RECORD.
A record that has directions already prints `refused 3 AlreadyForm2`, status 1.";

pub(crate) const REPLAY_ABOUT: &str =
    "Checks recorded messages of peers, and prints a verdict on each";

pub(crate) const REPLAY_HELP: &str = "\
A record is the frames that came in, joined, without a handshake, or what `convert` and
`tools/record` write: the frames of both sides with their directions. Prints a line for each frame
as it comes, and at last `end` or how the record failed. The status is 1 if something was refused,
and 2 if the record failed or memory was refused.";

pub(crate) const INFO_ONLY_HELP: &str =
    "Start from the roots alone, without the torrent's piece layers";

pub(crate) const SEED_HELP: &str =
    "Also start from the hashes of every complete and correct file in this folder";

pub(crate) const ANSWERS_HELP: &str =
    "Write the answers to hash requests to this file, which is emptied first";

pub(crate) const PADDED_HELP: &str =
    "Take the last block of a file with zeros behind its end too, as libtorrent sends it";

pub(crate) const NAME_HELP: &str = "The display name that the torrent suggests";

pub(crate) const PIECE_LENGTH_HELP: &str =
    "Bytes per piece, a power of two from 16384 to 1073741824; `64K`, `1M`, `1G`; or `auto`";

pub(crate) const EXCLUDE_HELP: &str =
    "Leave out the files and folders that match: `*.tmp` at any depth, `/a/*.txt` from DIR";

pub(crate) const CREATE_DIR_HELP: &str = "The folder that holds the files; none with --file";

pub(crate) const FILE_HELP: &str =
    "Make a torrent of this file, the one that a folder of this file alone gives";

pub(crate) const FOLLOW_SYMLINKS_HELP: &str =
    "Take what a symbolic link leads to, files and folders, in its place";

pub(crate) const SKIP_SPECIAL_HELP: &str =
    "Leave out what is neither file nor folder, and say so on standard error";

pub(crate) const HYBRID_HELP: &str = "Make a hybrid, which clients of version 1 can use too";

pub(crate) const NO_CLOBBER_HELP: &str = "Do not write OUT if it is there already";

pub(crate) const REASONS_HELP: &str =
    "Print the system's reasons on standard error, also in a pipe";

pub(crate) const LONG_HELP: &str =
    "Print the sum of the lengths, and how many pieces and layers there are";

pub(crate) const EXTRA_HELP: &str =
    "First print the files below DIR that the torrent does not name";

pub(crate) const SUMMARY_HELP: &str =
    "Print on standard error how many files have each verdict, and how fast they were read";

pub(crate) const REPLAYED_HELP: &str =
    "Print on standard error how many blocks were verified, and how many pieces are whole";

pub(crate) const PIECES_HELP: &str =
    "Hold blocks that cannot be proved yet until their piece is whole, and judge them then";
