//! The asks of our own requests that no hashes have answered yet.

ghost use Rattle.std.specs.Prelude.{◌≡◌, true, OnOk, OnErr, IsOk};
ghost use Rattle.std.specs.FinSet as set;

use hashtree::NoMemory;
use std::alloc::Global;
use std::collections::BTreeSet;
use std::marker::Model;
use wire::Ask;

/// The open asks, in the order of their fields: a look-up compares an ask with as many others as
/// the logarithm of how many are open. Contracts see them as the set.
#[derive(Drop)]
pub(crate) struct OpenAsks {
    asks: BTreeSet<Ask>,
}

impl Model for OpenAsks {
    ghost use Rattle.std.specs.FinSet as set;
    ghost use Rattle.session.specs.Asks.{AskSet, asks_code};

    ghost Value = { AskSet };

    ghost coded = { asks_code };

    ghost view = { λ o. set.from_list o.asks.keys };
}

impl OpenAsks {
    /// No ask is open.
    pub(crate) fn new(alloc: Global) -> OpenAsks
        ensures { result ≡ set.empty }
    {
        OpenAsks {
            asks: BTreeSet::new(alloc),
        }
    }

    /// Whether an ask is open.
    pub(crate) fn contains(&self, ask: &Ask) -> bool
        ensures { result ≡ set.contains self.now ask.now }
    {
        self.asks.contains(ask)
    }

    /// Opens an ask. One that is open takes no memory and changes nothing. Fails only if memory was
    /// refused, and then nothing has changed.
    pub(crate) fn insert(&mut self, ask: Ask) -> Result<(), NoMemory>
        ensures opened { OnOk result (self.new ≡ set.insert self.old ask) }
        ensures unchanged { OnErr result (self.new ≡ self.old) }
        ensures no_memory { set.contains self.old ask ≡ true → IsOk result }
    {
        self.asks.insert(ask)?;
        Ok(())
    }

    /// Closes an ask. Takes no memory.
    pub(crate) fn remove(&mut self, ask: &Ask)
        ensures { self.new ≡ set.remove self.old ask.now }
    {
        self.asks.remove(ask);
    }
}
