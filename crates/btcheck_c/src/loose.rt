//! A box taken apart: the pointer to its value, and the allocator that frees it.

ghost use Rattle.std.specs.Prelude.{◌≡◌};
ghost use Rattle.std.specs.Box.Ownership.{box_owns};

use std::alloc::Allocator;
use std::marker::Model;

/// What a box is made of. It owns what lies behind the pointer, as the box did.
pub struct Loose<T, A: Allocator> {
    pub(crate) at: *mut T,
    pub(crate) alloc: A,
    pub ghost value: { T },
}

impl<T, A: Allocator> Model for Loose<T, A> {
    ghost also_owns = { λ l. box_owns (A.dealloc_token l.alloc) T.row l.at l.value };
}

/// Takes a box apart.
pub fn loosen<T: Drop, A: Allocator>(whole: Box<T, A>) -> Loose<T, A>
    ensures { result.value ≡ whole.value }
{
    let (at, alloc) = Box::into_raw_with_allocator(whole);
    Loose { at, alloc }
}

/// Puts a box together again.
pub fn fasten<T, A: Allocator>(loose: Loose<T, A>) -> Box<T, A>
    ensures { result.value ≡ loose.value }
{
    let Loose { at, alloc } = loose;
    unsafe { Box::from_raw(alloc, at) }
}
