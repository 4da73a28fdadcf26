//! A boxed thing, or nothing, as a pointer that C may hold.

ghost use Rattle.std.specs.Prelude.{◌≡◌, Option, Some, None, IsSome};
ghost use Rattle.btcheck_c.specs.declared.thing.Thing.{Thing as Held};
ghost use Rattle.btcheck_c.specs.Owning.{slot_owns, thing_code};

use crate::loose::{Loose, fasten, loosen};
use crate::thing::Thing;
use std::alloc::Global;
use std::marker::Model;

/// A boxed thing, or nothing. C sees a pointer: a struct with a `Vec` cannot stand behind one that
/// crosses to C, so it is one to bytes. Only a slot of nothing may be dropped: so no code can lose
/// a thing by letting its slot go, or by writing over it.
#[repr(C)]
pub struct Slot {
    at: *mut u8,
    alloc: Global,
    pub ghost held: { Option Held } by { thing_code },
}

impl Model for Slot {
    ghost also_owns = { λ s. slot_owns s.alloc s.at s.held };
}

// The boxed thing may go to another thread, and any thread may free its block.
unsafe impl Send for Slot {}

impl Drop for Slot {
    /// Frees nothing. Condition: the slot has no thing.
    fn drop(self)
        requires { self.held ≡ None }
    {
        let Slot { at: _, alloc: _ } = self;
    }
}

impl Slot {
    /// A slot of nothing.
    pub fn empty(alloc: Global) -> Slot
        ensures { result.held ≡ None }
    {
        let nowhere: *mut u8 = std::ptr::null_mut();
        vacate(nowhere, alloc)
    }

    /// A slot of a thing.
    pub fn full(thing: Box<Thing>) -> Slot
        ensures { result.held ≡ Some thing.value }
    {
        seal(loosen(thing))
    }

    /// The thing of a slot that has one.
    pub fn into_box(self) -> Box<Thing>
        requires { IsSome self.held }
        ensures { Some result.value ≡ self.held }
    {
        fasten(self.unseal())
    }

    // The thing of a slot that has one, as a box that was taken apart.
    fn unseal(self) -> Loose<Thing, Global>
        requires { IsSome self.held }
        ensures { Some result.value ≡ self.held }
    {
        let Slot { at, alloc } = self;
        Loose {
            at: at as *mut Thing,
            alloc,
        }
    }
}

// A slot of nothing, whatever its pointer is.
fn vacate(at: *mut u8, alloc: Global) -> Slot
    ensures { result.held ≡ None }
{
    Slot { at, alloc }
}

// A slot of the thing whose box was taken apart.
fn seal(loose: Loose<Thing, Global>) -> Slot
    ensures { result.held ≡ Some loose.value }
{
    let Loose { at, alloc } = loose;
    Slot {
        at: at as *mut u8,
        alloc,
    }
}
