//! A row of bits in bytes.

ghost use Rattle.std.specs.Prelude.{◌≡◌, ◌≢◌, ◌↔◌, ℕ, ◌*◌, ◌<◌, IfSome, IsNone, IsTrue, length};
ghost use Rattle.hashtree.specs.Bits.{AreSet, IsClearRun, bit_of};

/// Sets the bit with this number, as a bitfield has it (BEP 3): bit 0 is the highest of the first
/// byte. It does nothing if there is no such bit.
pub(crate) fn set_bit(bits: &mut [u8], place: usize)
    ensures set { place < 8 * length bits.old → bit_of bits.new place ≡ 1 }
    ensures others { (k : ℕ) → k ≢ place → bit_of bits.new k ≡ bit_of bits.old k }
{
    let byte = place / 8;
    if byte < bits.len() {
        bits[byte] |= 1 << (7 - place % 8);
    }
}

/// Whether the bit with this number is set, as a bitfield has it (BEP 3): bit 0 is the highest of
/// the first byte. A bit past the end is not.
pub(crate) fn is_set(bits: &[u8], place: usize) -> bool
    ensures { IsTrue result ↔ (bit_of bits.now place ≡ 1) }
{
    let byte = place / 8;
    byte < bits.len() && (bits[byte] >> (7 - place % 8)) & 1 == 1
}

/// The first run of bits that are not set, of those from one number up to another: its first number
/// and the one after its last. `None`: all of them are set.
pub fn clear_run(bits: &[u8], from: usize, to: usize) -> Option<(usize, usize)>
    ensures none { IsNone result → AreSet bits.now from to }
    ensures run { IfSome result (λ run. IsClearRun bits.now from to run.0 run.1) }
{
    let mut first = from;
    'set: while first < to && is_set(bits, first) {
        first += 1;
    }
    if first >= to {
        return None;
    }
    let mut end = first + 1;
    'clear: while end < to && !is_set(bits, end) {
        end += 1;
    }
    Some((first, end))
}
