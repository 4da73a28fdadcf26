//! What comes after a message (FIPS 180-4, 5.1.1).

ghost use Rattle.std.specs.Prelude.{◌≡◌, ◌%◌, ◌^◌, ◌<◌};
ghost use Rattle.sha2.specs.Sha256.{padding};

/// The block after a message of this many bytes, which are whole blocks: a bit, zeros, and the
/// number of the message's bits.
pub(crate) fn padding_block(size: u64) -> [u8; 64]
    requires whole { size % 64 ≡ 0 }
    requires short { size < 2 ^ 32 }
    ensures { result ≡ padding size }
{
    let mut block = [0; 64];
    block[0] = 0x80;
    block[56..].copy_from_slice(&(8 * size).to_be_bytes());
    block
}
