//! The hashes of places that cover pads alone, layer by layer.

ghost use Rattle.std.specs.Prelude.{◌≡◌, ◌≤◌};
ghost use Rattle.hashtree.specs.Tree.{zero_hash};

use hashtree::{Hash, parent, zero};

/// The hash over pads on the layer that was asked for last; each layer above costs one digest.
#[derive(Drop)]
pub(crate) struct Pads {
    layer: u32,
    hash: Hash,
    ghost low: { layer ≤ 32 },
    ghost is_zero_hash: { hash ≡ zero_hash layer },
}

impl Pads {
    /// The pad leaf.
    pub(crate) fn new() -> Pads
        ensures { result.layer ≡ 0 }
    {
        Pads {
            layer: 0,
            hash: zero(0),
        }
    }

    /// The hash over pads on a layer that is no lower than the one before.
    pub(crate) fn at(&mut self, layer: u32) -> Hash
        requires low { layer ≤ 32 }
        requires upward { self.old.layer ≤ layer }
        ensures value { result ≡ zero_hash layer }
        ensures layer { self.new.layer ≡ layer }
    {
        for below in self.layer..layer {
            *self = Pads {
                layer: below + 1,
                hash: parent(&self.hash, &self.hash),
            };
        }
        self.hash
    }
}
