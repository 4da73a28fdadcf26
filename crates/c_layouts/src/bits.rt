//! One bit of a row of bits, as a bitfield has it (BEP 3).

ghost use Rattle.std.specs.Prelude.{◌≡◌, ◌≢◌, ◌*◌, ◌<◌, ℕ, length};
ghost use Rattle.hashtree.specs.Bits.{bit_of};

/// Sets the bit with this number: bit 0 is the highest of the first byte. It does nothing if there
/// is no such bit.
pub fn set_bit(bits: &mut [u8], place: usize)
    ensures set { place < 8 * length bits.old → bit_of bits.new place ≡ 1 }
    ensures others { (k : ℕ) → k ≢ place → bit_of bits.new k ≡ bit_of bits.old k }
    ensures size { length bits.new ≡ length bits.old }
{
    let byte = place / 8;
    if byte < bits.len() {
        bits[byte] |= 1 << (7 - place % 8);
    }
}
