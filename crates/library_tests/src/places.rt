//! Messages of any lengths, anywhere in a buffer.

ghost use Rattle.std.specs.Prelude.{◌≡◌, ℕ, ◌+◌, ◌<◌, ◌≤◌, IsTrue, length, slice_index};
ghost use Rattle.lanes.specs.declared.words.TheConstants.{LANES};

use crate::random::Random;
use lanes::LANES;

/// Where the message of each lane begins, and how many bytes it has.
#[derive(Clone, Copy)]
pub(crate) struct Places {
    pub(crate) starts: [usize; LANES],
    pub(crate) sizes: [usize; LANES],
}

impl Places {
    /// The same place for each message.
    pub(crate) fn all(start: usize, size: usize) -> Places {
        Places {
            starts: [start; LANES],
            sizes: [size; LANES],
        }
    }

    /// Places of messages of less than `most` bytes that begin within this many bytes.
    pub(crate) fn any(random: &mut Random, within: usize, most: usize) -> Places {
        let mut places = Places::all(0, 0);
        for lane in 0..LANES {
            places.starts[lane] = random.below(within);
            places.sizes[lane] = random.below(most);
        }
        places
    }

    /// Whether each message stands in this buffer, and has at most this many bytes.
    pub(crate) fn fit(&self, buffer: &[u8], most: usize) -> bool
        ensures inside { IsTrue result → (j : ℕ) → j < LANES
            → slice_index self.now.starts j + slice_index self.now.sizes j ≤ length buffer.now }
        ensures short { IsTrue result → (j : ℕ) → j < LANES → slice_index self.now.sizes j ≤ most }
    {
        let mut fit = true;
        'lanes: for j in 0..LANES {
            let room = buffer.len().checked_sub(self.starts[j]);
            fit = fit && self.sizes[j] <= room.unwrap_or(0) && self.sizes[j] <= most;
            fit = fit && room.is_some();
        }
        fit
    }

    /// The message of this lane; empty if it does not stand in the buffer.
    pub(crate) fn message<'a>(&self, buffer: &'a [u8], lane: usize) -> &'a [u8] {
        let place = self.starts.get(lane).zip(self.sizes.get(lane));
        let Some((start, size)) = place else {
            return &[];
        };
        let rest = buffer.get(*start..).unwrap_or(&[]);
        rest.get(..*size).unwrap_or(rest)
    }
}
