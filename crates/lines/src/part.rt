//! What a line is made of.

/// How many parts and members a line has room for.
pub(crate) const ROOM: usize = 8;

/// A part of a line. One space stands between two parts. Keys, words and names have no character
/// that is escaped in a JSON string.
#[derive(Clone, Copy, Drop)]
pub(crate) enum Part<'a> {
    /// This word, or several.
    Word(&'static str),
    /// A number, under this key.
    Number(&'static str, u64),
    /// A number, under this key. A dash stands behind it in place of the space.
    Start(&'static str, u64),
    /// A number, under this key. A slash stands behind it in place of the space.
    Over(&'static str, u64),
    /// A name, under this key.
    Name(&'static str, &'static str),
    /// A letter with a number behind it, under this key.
    Code(&'static str, &'static str, u64),
    /// A SHA-256 digest, under this key. It is written in lower case hexadecimal.
    Sha256(&'static str, &'a [u8; 32]),
    /// A SHA-1 digest, under this key. It is written in lower case hexadecimal.
    Sha1(&'static str, &'a [u8; 20]),
    /// A text, under this key. It is printed with its escapes.
    Text(&'static str, &'a str),
    /// A path by its components, under this key. It is printed with its escapes.
    Path(&'static str, &'a [&'a str]),
    /// The same of components that own their texts.
    OwnPath(&'static str, &'a [String]),
    /// A path by its components, under this key, in the JSON object alone: the text has nothing in
    /// its place.
    Unprinted(&'static str, &'a [&'a str]),
}

impl<'a> Default for Part<'a> {
    fn default() -> Part<'a> {
        Part::Word("")
    }
}
