//! Bytes and numbers for tests with many inputs.

use std::alloc::AllocError;

/// Bytes that look random, the same in each run (a linear congruential generator).
#[derive(Drop)]
pub(crate) struct Random {
    state: u64,
}

impl Random {
    pub(crate) fn new() -> Random {
        Random { state: 2026 }
    }

    pub(crate) fn next(&mut self) -> [u8; 8] {
        let next = self.state.wrapping_mul(6364136223846793005);
        self.state = next.wrapping_add(1442695040888963407);
        (self.state ^ (self.state >> 32)).to_be_bytes()
    }

    /// This many times eight bytes.
    pub(crate) fn fill(&mut self, bytes: &mut Vec<u8>, count: usize) -> Result<(), AllocError> {
        bytes.clear();
        for _ in 0..count {
            bytes.extend_from_slice(&self.next())?;
        }
        Ok(())
    }

    /// A number below this one; 0 if that is 0.
    pub(crate) fn below(&mut self, bound: usize) -> usize {
        let number = u64::from_be_bytes(self.next()) >> 1;
        (number as usize).checked_rem(bound).unwrap_or(0)
    }
}
