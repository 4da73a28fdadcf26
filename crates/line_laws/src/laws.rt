//! The laws of lines, each as the contract of a function that does nothing.

ghost use Rattle.line_laws.specs.Lines.{LineObjectsAreTexts, LineObjectsReadBack, LinesArePlain, LinesAreSaid, LineTextsTell, ReportsTell};
ghost use Rattle.line_laws.specs.Refused.{BlockRefusalsAreSaid, HashRefusalsAreSaid};
ghost use Rattle.line_laws.specs.Said.{TextsTell};
ghost use Rattle.line_laws.specs.Values.{ObjectsAreTexts};

/// The JSON object of a line is what `serde_json` writes for the same value, and a line feed: of
/// each row whose keys, names and codes need no escape and whose keys are apart, and of each line
/// of the table. `serde_json` reads the object of such a line as that value.
pub fn objects_are_texts()
    ensures rows { ObjectsAreTexts }
    ensures plain { LinesArePlain }
    ensures lines { LineObjectsAreTexts }
    ensures read { LineObjectsReadBack }
{}

/// Two lines of the table with one text are one line: their kinds, numbers, names and texts are the
/// same, but for what is not printed: the path of a run of bad pieces, which the line before has.
/// Numbers fit 64 bits, names are words, a root has its digits and texts are bytes, as the types of
/// a line say, but for the names of refused messages and of a record's fault; those of a session's
/// refusals are words. Reports with one text have the same lines, in order, as far as they are
/// printed.
pub fn texts_tell()
    ensures rows { TextsTell }
    ensures said { LinesAreSaid }
    ensures hashes { HashRefusalsAreSaid }
    ensures blocks { BlockRefusalsAreSaid }
    ensures lines { LineTextsTell }
    ensures reports { ReportsTell }
{}
