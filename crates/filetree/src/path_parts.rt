//! The components of a path, one after the other in one place.

ghost use Rattle.std.specs.Prelude.{◌≡◌, ◌<◌, ◌++◌, ◌∷◌, [], length, map};

use std::marker::Model;
use std::ops::DerefSlice;

// More than the 124 components that a path may have, one for each open dictionary.
const ROOM: usize = 128;

/// The components of a path, from the torrent's root down. Contracts see them as a list.
#[derive(Drop)]
pub struct PathParts<'p> {
    room: [&'p str; ROOM],
    count: usize,
}

impl<'p> Model for PathParts<'p> {
    ghost use Rattle.std.specs.Prelude.{◌≡◌, ◌≤◌, ℕ, List, length, map, take};

    ghost Value = { List (List ℕ) };

    ghost view = { λ p. map (λ s. s.now) (take p.count p.room) };

    ghost invariant = { λ p. (p.count ≤ 128) × (length p.room ≡ 128) };
}

impl<'p> PathParts<'p> {
    /// No component.
    pub(crate) fn new() -> PathParts<'p>
        ensures { result ≡ [] }
    {
        PathParts {
            room: [""; ROOM],
            count: 0,
        }
    }

    /// Puts one more at the end. Condition: there is room.
    pub(crate) fn push(&mut self, part: &'p str)
        requires { length self.old < 128 }
        ensures { self.new ≡ self.old ++ part.now ∷ [] }
    {
        self.room[self.count] = part;
        self.count += 1;
    }

    /// The components side by side.
    pub fn as_slice(&self) -> &[&'p str]
        ensures { map (λ s. s.now) result.now ≡ self.now }
    {
        &self.room[..self.count]
    }
}

impl<'p> DerefSlice for PathParts<'p> {
    type Elem = &'p str;

    ghost deref_gives = { λ p parts. map (λ s. s.now) parts ≡ p };

    fn deref(&self) -> &[&'p str] {
        self.as_slice()
    }
}
