//! A report that also says which pieces are bad.
ghost use Rattle.std.specs.Prelude.{◌≡◌, ◌≢◌, ℕ, ◌*◌, ◌<◌, ◌≤◌, length, IfOk};
ghost use Rattle.hashtree.specs.Bits.{bit_of};

use folders::Report;
use std::alloc::{AllocError, Global};

/// Which pieces of a torrent are bad, by their numbers in it.
#[derive(Debug, PartialEq, Drop)]
pub struct BadPieces {
    // A bit for each piece, as a check keeps them: that of a bad one is not set.
    pub(crate) bits: Vec<u8>,
}

impl BadPieces {
    ghost use Rattle.part_reports.specs.Marks.{IsPieceMarked, MarksMore};

    /// None of this many pieces.
    pub(crate) fn none(alloc: Global, pieces: u64) -> Result<BadPieces, AllocError>
        ensures room { IfOk result (λ b. pieces ≤ 8 * length b.bits.items) }
        ensures none { IfOk result (λ b. (piece : ℕ) → IsPieceMarked b piece → ⊥) }
    {
        let mut bits = Vec::new(alloc);
        bits.resize(pieces.div_ceil(8) as usize, 255)?;
        Ok(BadPieces { bits })
    }

    /// Marks the pieces from one number up to another. Condition: there are this many.
    pub(crate) fn mark(&mut self, from: u64, to: u64)
        requires order { from ≤ to }
        requires room { to ≤ 8 * length self.old.bits.items }
        ensures { MarksMore (λ piece. (from ≤ piece) × (piece < to)) self.old self.new }
    {
        'pieces: for piece in from..to {
            clear_bit(&mut self.bits, piece as usize);
        }
    }
}

// Clears the bit with this number. Condition: there is one.
fn clear_bit(bits: &mut [u8], place: usize)
    requires { place < 8 * length bits.old }
    ensures clear { bit_of bits.new place ≡ 0 }
    ensures others { (k : ℕ) → k ≢ place → bit_of bits.new k ≡ bit_of bits.old k }
{
    bits[place / 8] &= !(1 << (7 - place % 8));
}

/// What a check found, and which pieces are bad.
#[derive(Debug, PartialEq, Drop)]
pub struct MarkedReport {
    /// The verdicts.
    pub report: Report,
    /// The bad pieces.
    pub bad: BadPieces,
}
