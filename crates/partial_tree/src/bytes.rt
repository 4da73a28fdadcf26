//! What the type of hashes says of them, as contracts: each is 32 bytes. The functions do nothing,
//! and name this for what calls them.

ghost use Rattle.std.specs.Prelude.{◌≡◌, length};
ghost use Rattle.std.specs.List.{All};
ghost use Rattle.node_maps.specs.Digest.{AreBytes, IsHash};
ghost use Rattle.partial_tree.specs.Claims.{AreHashes};

use hashtree::Hash;

/// A hash is 32 bytes.
pub fn recall_hash(hash: &Hash)
    ensures { IsHash hash.now }
{
    recall_bytes(hash.as_slice());
}

/// Each hash is 32 bytes.
pub fn recall_hashes(hashes: &[Hash])
    ensures { AreHashes hashes.now }
{
    have_sizes(hashes);
    recall_bytes(hashes.as_flattened());
}

// Each hash has as many numbers as a digest has bytes.
fn have_sizes(hashes: &[Hash])
    ensures { All (λ h. length h ≡ 32) hashes.now }
{}

// Each number is a byte.
fn recall_bytes(bytes: &[u8])
    ensures { AreBytes bytes.now }
{}
