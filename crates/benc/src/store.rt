//! Memory for what is decoded.
ghost use Rattle.std.specs.Prelude.{◌≡◌, ◌⊎◌, ◌++◌, ◌∷◌, [], IfSome, MatchResult, length, vec_capacity};
ghost use Rattle.std.specs.Option.{option_copied};
ghost use Rattle.benc.specs.Fails.{Opens, Reaches};
ghost use Rattle.benc.specs.Spelling.{max_open};
ghost use Rattle.benc.specs.Storing.{KeepsAll, Refused};
ghost use Rattle.benc.specs.Thrift.{IsSmallRoom};
ghost use Rattle.benc.specs.declared.fault.FaultKind.{FaultKind};

use crate::fault::{Fault, FaultKind};
use std::alloc::{AllocError, Global};

/// Where lists and dictionaries grow. Once one could not, nothing more is stored, and decoding goes
/// on only to find the first fault.
#[derive(Drop)]
pub(crate) struct Store<'a> {
    pub(crate) alloc: Global,
    /// What is left from the first list or dictionary on that could not grow.
    pub(crate) refused: Option<&'a [u8]>,
}

impl<'a> Store<'a> {
    /// A store that refused nothing.
    pub(crate) fn new(alloc: Global) -> Store<'a>
        ensures { KeepsAll result }
    {
        Store {
            alloc,
            refused: None,
        }
    }

    /// Puts one more at the end of the list or dictionary that begins at `start`.
    pub(crate) fn push<T: Drop>(&mut self, start: &'a [u8], found: &mut Vec<T>, item: T)
        ensures kept { KeepsAll self.new → found.new.items ≡ found.old.items ++ item ∷ [] }
        ensures lost { (found.new.items ≡ found.old.items ++ item ∷ [])
            ⊎ (found.new.items ≡ found.old.items) }
        ensures refused { Refused self.old self.new (λ s. s ≡ start.now) }
        ensures room { IsSmallRoom (vec_capacity found.old) (length found.old.items)
            → IsSmallRoom (vec_capacity found.new) (length found.new.items) }
    {
        if self.refused.is_none() && push(found, item).is_err() {
            self.refused = Some(start);
        }
    }

    /// The fault `NoMemory`, if a growth was refused in the input.
    pub(crate) fn check(&self, input: &'a [u8]) -> Result<(), Fault>
        requires { IfSome (option_copied self.now.refused) (Reaches max_open input.now) }
        ensures { MatchResult result (λ _. KeepsAll self.now)
            (λ f. (f.kind ≡ FaultKind.NoMemory) × Opens input.now f.offset) }
    {
        match self.refused {
            None => Ok(()),
            Some(start) => Err(Fault {
                kind: FaultKind::NoMemory,
                offset: input.len() - start.len(),
            }),
        }
    }
}

// Puts one more at the end. The room doubles from one on: most lists and dictionaries are short.
fn push<T: Drop>(found: &mut Vec<T>, item: T) -> Result<(), AllocError>
    ensures items { MatchResult result (λ _. found.new.items ≡ found.old.items ++ item ∷ [])
        (λ _. found.new.items ≡ found.old.items) }
    ensures room { IsSmallRoom (vec_capacity found.old) (length found.old.items)
        → IsSmallRoom (vec_capacity found.new) (length found.new.items) }
{
    if found.len() == found.capacity() {
        found.reserve_exact(found.len().max(1))?;
    }
    found.push_reserved(item);
    Ok(())
}
