//! A sink that compares what is written to it with a text.
ghost use Rattle.std.specs.Prelude.{◌≡◌, ◌<◌, ◌≤◌, ℕ, None, Some, length, get_or};

use benc::{DeviceFault, Sink};

/// A text, and how much of it was written. Of what differs from the text the first byte is taken,
/// and no byte behind that one.
#[derive(Drop)]
pub(crate) struct Compared<'a> {
    pub(crate) text: &'a [u8],
    // How many bytes of the text were written.
    taken: usize,
    // The byte that was written behind these, if it is not the text's next one.
    other: Option<u8>,
    faults: u64,
    flushes: u64,
    ghost inside: { taken ≤ length text.now },
    ghost differs: { (b : ℕ) → other ≡ Some b → taken < length text.now
        → get_or text.now taken 0 ≡ b → ⊥ },
    ghost faulty: { 0 < faults → other ≡ None → ⊥ },
}

impl<'a> Compared<'a> {
    ghost use Rattle.std.specs.Prelude.{◌++◌, ◌∷◌, [], MatchOption, take};
    ghost use Rattle.lines.specs.Reading.{BeginsWith, bytes_taken};

    /// Nothing was written.
    pub(crate) fn new(text: &'a [u8]) -> Compared<'a>
        ensures text { result.text.now ≡ text.now }
        ensures nothing { bytes_taken result ≡ [] }
        ensures faults { result.faults ≡ 0 }
    {
        Compared {
            text,
            taken: 0,
            other: None,
            faults: 0,
            flushes: 0,
        }
    }

    /// What stands behind the bytes that were written, if the text begins with them.
    pub(crate) fn rest(&self) -> Option<&'a [u8]>
        ensures { MatchOption result (BeginsWith (bytes_taken self.now) self.now.text.now → ⊥)
            (λ rest. self.now.text.now ≡ bytes_taken self.now ++ rest.now) }
    {
        match self.other {
            None => Some(&self.text[self.taken..]),
            Some(_) => None,
        }
    }

    // Takes these bytes, or the first of them, and says how many.
    fn take(&mut self, bytes: &[u8]) -> usize
        requires { self.old.other ≡ None }
        ensures bound { result ≤ length bytes.now }
        ensures some { 0 < length bytes.now → 0 < result }
        ensures text { self.new.text.now ≡ self.old.text.now }
        ensures bytes { bytes_taken self.new ≡ bytes_taken self.old ++ take result bytes.now }
        ensures faults { self.new.faults ≡ self.old.faults }
        ensures flushes { self.new.flushes ≡ self.old.flushes }
    {
        if self.text[self.taken..].starts_with(bytes) {
            self.taken += bytes.len();
            return bytes.len();
        }
        let Some(first) = bytes.first() else {
            return 0;
        };
        self.take_one(*first);
        1
    }

    // Takes a byte.
    fn take_one(&mut self, byte: u8)
        requires { self.old.other ≡ None }
        ensures text { self.new.text.now ≡ self.old.text.now }
        ensures bytes { bytes_taken self.new ≡ bytes_taken self.old ++ byte ∷ [] }
        ensures faults { self.new.faults ≡ self.old.faults }
        ensures flushes { self.new.flushes ≡ self.old.flushes }
    {
        if self.taken < self.text.len() && self.text[self.taken] == byte {
            self.taken += 1;
        } else {
            self.other = Some(byte);
        }
    }
}

impl<'a> Sink for Compared<'a> {
    ghost use Rattle.std.specs.Prelude.{true};
    ghost use Rattle.lines.specs.Reading.{compared_bytes};

    ghost seen = { λ s. record {
      written = Some (compared_bytes s);
      faults = s.faults;
      flushes = s.flushes;
      is_flushed = true;
    } };

    fn write(&mut self, buf: &[u8]) -> Result<usize, DeviceFault> {
        if self.other.is_some() {
            self.faults = self.faults.wrapping_add(1);
            return Err(DeviceFault);
        }
        Ok(self.take(buf))
    }

    fn flush(&mut self) -> Result<(), DeviceFault> {
        self.flushes = self.flushes.wrapping_add(1);
        Ok(())
    }

    fn failures(&self) -> u64 {
        self.faults
    }
}
