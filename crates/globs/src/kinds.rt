//! What a glob is made of.
ghost use Rattle.std.specs.Prelude.{◌≡◌};
ghost use Rattle.globs.specs.Globs.{choice_of, is_bracketed, takes};

/// The characters from one to another.
#[derive(Clone, Copy, Drop)]
pub struct Range {
    /// The first of them.
    pub first: char,
    /// The last of them.
    pub last: char,
}

/// The characters in brackets.
#[derive(Drop)]
pub struct Brackets {
    /// Whether they are those of no range, in place of those of one.
    pub is_other: bool,
    /// The ranges.
    pub ranges: Vec<Range>,
}

/// The characters that one place takes.
#[derive(Drop)]
pub enum Letters {
    /// This character.
    One(char),
    /// Any but `/`.
    InName,
    /// Any.
    Any,
    /// Those in brackets, but never `/`.
    Bracketed(Brackets),
}

/// A part of a glob.
#[derive(Drop)]
pub enum GlobPart {
    /// One of these characters.
    Letter(Letters),
    /// Any number of these characters, also none.
    Run(Letters),
    /// Any number of folders, also none.
    Folders,
}

/// A glob, read from its text.
#[derive(Drop)]
pub struct Glob {
    /// Its parts, in order.
    pub(crate) parts: Vec<GlobPart>,
    /// Whether it matches folders alone.
    pub(crate) folders_alone: bool,
}

impl Brackets {
    // Whether this character is one of them.
    fn has(&self, letter: char) -> bool
        ensures { result ≡ is_bracketed self.now.is_other self.now.ranges.items letter }
    {
        let is_listed = self
            .ranges
            .iter()
            .any(|range| range.first <= letter && letter <= range.last);
        if self.is_other { !is_listed } else { is_listed }
    }
}

impl Letters {
    /// Whether this character is one of them.
    pub fn takes(&self, letter: char) -> bool
        ensures { result ≡ takes (choice_of self.now) letter }
    {
        match self {
            Letters::One(one) => letter == *one,
            Letters::InName => letter != '/',
            Letters::Any => true,
            Letters::Bracketed(brackets) => letter != '/' && brackets.has(letter),
        }
    }
}
