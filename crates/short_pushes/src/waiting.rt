//! Bytes that wait.

ghost use Rattle.std.specs.Prelude.{◌≡◌, ◌⊎◌, ◌↔◌, ◌+◌, ◌<◌, ◌≤◌, ◌++◌, [], IfOk, IsTrue, length, vec_len};
ghost use Rattle.std.specs.Vec.{vec_capacity};

use crate::groups::GROUP;
use pieces::room_of_zeros;
use std::alloc::{AllocError, Global};

/// Bytes that came and are not handed on yet, at most as many as eight blocks have: the first of a
/// room that [`Waiting::new`] takes, and that stays as long as it is.
#[derive(Drop)]
pub(crate) struct Waiting {
    room: Vec<u8>,
    count: usize,
    ghost exact: { vec_capacity room ≡ 131072 },
    ghost whole: { vec_len room ≡ 131072 },
    ghost few: { count ≤ 131072 },
}

impl Waiting {
    ghost use Rattle.hashtree.specs.Parts.{TakesFront};
    ghost use Rattle.short_pushes.specs.Held.{Appends, held};

    /// No bytes, and room for as many as eight blocks have. It fails if memory is refused.
    pub(crate) fn new(alloc: Global) -> Result<Waiting, AllocError>
        ensures { IfOk result (λ w. held w ≡ []) }
    {
        let room = room_of_zeros(alloc, GROUP).ok_or(AllocError)?;
        Ok(Waiting { room, count: 0 })
    }

    /// How many bytes wait.
    pub(crate) fn len(&self) -> usize
        ensures value { result ≡ length (held self.now) }
        ensures count { result ≡ self.now.count }
        ensures bound { result ≤ 131072 }
    {
        self.count
    }

    /// Whether no bytes wait.
    pub(crate) fn is_empty(&self) -> bool
        ensures { IsTrue result ↔ (held self.now ≡ []) }
    {
        self.len() == 0
    }

    /// Whether as many bytes wait as there is room for.
    pub(crate) fn is_full(&self) -> bool
        ensures { IsTrue result ↔ (length (held self.now) ≡ 131072) }
    {
        self.len() == GROUP
    }

    /// The bytes that wait.
    pub(crate) fn as_slice(&self) -> &[u8]
        ensures { result.now ≡ held self.now }
    {
        &self.room.as_slice()[..self.count]
    }

    /// Lets further bytes wait. Condition: there is room for them.
    pub(crate) fn keep(&mut self, bytes: &[u8])
        requires { length (held self.old) + length bytes.now ≤ 131072 }
        ensures { held self.new ≡ held self.old ++ bytes.now }
    {
        let at = self.len();
        let end = at + bytes.len();
        self.room.as_mut_slice()[at..end].copy_from_slice(bytes);
        self.count = end;
    }

    /// If bytes wait, lets as many of these wait too as there is room for. Returns those that are
    /// left.
    pub(crate) fn top_up<'a>(&mut self, bytes: &'a [u8]) -> &'a [u8]
        ensures front { TakesFront Appends (held self.old) bytes.now (held self.new) result.now }
        ensures ends { (held self.new ≡ [])
            ⊎ ((length (held self.new) ≡ 131072) ⊎ (result.now ≡ [])) }
    {
        if self.is_empty() {
            return bytes;
        }
        let (front, rest) = bytes.split_at(bytes.len().min(GROUP - self.len()));
        self.keep(front);
        rest
    }

    /// Lets no bytes wait any more: they are handed on.
    pub(crate) fn clear(&mut self)
        ensures { held self.new ≡ [] }
    {
        self.count = 0;
    }
}
