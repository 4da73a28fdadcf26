//! What C holds: a boxed thing, or nothing.

ghost use Rattle.std.specs.Prelude.{◌≡◌, Some, None, option_map, is_some};

use crate::slot::Slot;
use crate::thing::{Kind, Thing};
use c_layouts::status::{DONE, NO_MEMORY};
use std::alloc::Global;
use std::mem::replace;

/// What C holds: a boxed thing, or nothing. Zero bytes are a handle of nothing. Only a handle of
/// nothing may be dropped or written over, as its slot says.
#[repr(C)]
#[derive(Drop)]
pub struct Handle {
    full: bool,
    slot: Slot,
    ghost is_full: { is_some slot.held ≡ full },
}

impl Handle {
    ghost use Rattle.btcheck_c.specs.Holds.{IsHandleFilled};

    fn empty(alloc: Global) -> Handle
        ensures { result.slot.held ≡ None }
    {
        Handle {
            full: false,
            slot: Slot::empty(alloc),
        }
    }

    /// Whether it holds a thing.
    pub(crate) fn is_full(&self) -> bool
        ensures { result ≡ is_some self.now.slot.held }
    {
        self.full
    }

    /// Puts a thing into the handle. Condition: it holds nothing.
    pub(crate) fn put(&mut self, thing: Box<Thing>)
        requires { self.old.slot.held ≡ None }
        ensures { self.new.slot.held ≡ Some thing.value }
    {
        *self = Handle {
            full: true,
            slot: Slot::full(thing),
        };
    }

    /// Puts a thing of this kind into the handle, and answers a status. Status 2: memory was
    /// refused, and the handle is as before. Condition: it holds nothing.
    pub(crate) fn fill(&mut self, alloc: Global, kind: Kind) -> u32
        requires { self.old.slot.held ≡ None }
        ensures { IsHandleFilled kind self.old.slot.held result self.new.slot.held }
    {
        match Box::new(alloc, Thing { kind }) {
            Err(_) => NO_MEMORY,
            Ok(thing) => {
                self.put(thing);
                DONE
            }
        }
    }

    /// Takes the thing out, and leaves nothing.
    pub(crate) fn take(&mut self, alloc: Global) -> Option<Box<Thing>>
        ensures taken { option_map (λ b. b.value) result ≡ self.old.slot.held }
        ensures empty { self.new.slot.held ≡ None }
    {
        let Handle { full, slot } = replace(self, Handle::empty(alloc));
        if full { Some(slot.into_box()) } else { None }
    }
}
