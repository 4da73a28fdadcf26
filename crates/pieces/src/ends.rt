//! Where the last whole piece of some bytes ends.

ghost use Rattle.std.specs.Prelude.{◌≡◌, ◌↔◌, ◌*◌, ◌%◌, ◌^◌, ◌<◌, ◌≤◌, IsTrue};

use hashtree::BLOCK_LENGTH;

/// Whether this many bytes are whole pieces, at least one. A piece has 16384 bytes times two to the
/// layer (BEP 52, "piece length").
pub fn ends_with_piece(count: u64, layer: u32) -> bool
    requires { layer ≤ 32 }
    ensures { IsTrue result ↔ ((0 < count) × (count % (16384 * 2 ^ layer) ≡ 0)) }
{
    count > 0 && count % (BLOCK_LENGTH << layer) == 0
}
