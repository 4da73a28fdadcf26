//! The hashing of a file's next bytes.

ghost use Rattle.std.specs.Prelude.{length, OnErr, OnOk};
ghost use Rattle.gathering.specs.Hashing.{CanHash, CutsIf, CutsMayLackMemory, Hashes, MayEndWithout};
ghost use Rattle.hashtree.specs.LayerBuilder.{FeedsLayer};

use gathering::Hashing;
use hashtree::NoMemory;
use pieces::V1Cuts;

/// Hashes further bytes. It fails only if memory was refused, in this call or an earlier one.
pub(crate) fn feed(hashing: &mut Hashing, bytes: &[u8]) -> Result<(), NoMemory>
    requires { CanHash hashing.old (length bytes.now) }
    ensures hashed { Hashes hashing.old bytes.now hashing.new }
    ensures fed { OnOk result (FeedsLayer hashing.old.tree bytes.now hashing.new.tree) }
    ensures refused { OnErr result (MayEndWithout hashing.new) }
{
    let tree = hashing.tree.push(bytes);
    let cuts = feed_cuts(&mut hashing.cuts, bytes);
    match tree {
        Err(refused) => Err(refused),
        Ok(()) => cuts,
    }
}

// Digests further bytes of a hybrid.
fn feed_cuts(cuts: &mut Option<V1Cuts>, bytes: &[u8]) -> Result<(), NoMemory>
    ensures digested { CutsIf cuts.old bytes.now cuts.new }
    ensures refused { OnErr result (CutsMayLackMemory cuts.new) }
{
    match cuts {
        Some(cuts) => cuts.push(bytes),
        None => Ok(()),
    }
}
