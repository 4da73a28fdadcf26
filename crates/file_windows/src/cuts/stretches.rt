//! A cut in each lane, hashed as it is and filled up with zeros: the lanes go on together from the
//! end of one cut to that of the next, and then through the zeros.

ghost use Rattle.std.specs.Prelude.{◌≡◌, ℕ, ◌+◌, ◌-◌, ◌*◌, ◌/◌, ◌%◌, ◌<◌, ◌≤◌, ◌++◌, length, min, replicate, slice_index, take};
ghost use Rattle.file_windows.specs.Digests.{IsDigest, IsOwnDigest};
ghost use Rattle.file_windows.specs.LaneCuts.{HaveEnded, HaveTaken, end_of};
ghost use Rattle.lanes.specs.declared.words.TheConstants.{LANES};
ghost use Rattle.sha1.specs.Sha1.{sha1};
ghost use Rattle.sha1_lanes.specs.Batches.{HasTaken};

use lanes::LANES;
use sha1_lanes::Batch;

/// The digests of a cut in each lane: of the cuts as they are, and filled up with zeros.
#[derive(Drop)]
pub(crate) struct LaneDigests {
    pub(crate) own: [[u8; 20]; LANES],
    pub(crate) filled: [[u8; 20]; LANES],
}

// Cuts in a buffer, one in each lane.
#[derive(Clone, Copy)]
struct CutsInLanes<'a> {
    buffer: &'a [u8],
    starts: &'a [usize; LANES],
    sizes: &'a [usize; LANES],
}

/// The digests of the cuts of these sizes at these bytes of the buffer, one in each lane. `whole`
/// is the piece length. Conditions: it is a multiple of 64, none of the sizes is greater, and the
/// cuts stand in the buffer.
pub(crate) fn digests_of_lanes(
    buffer: &[u8],
    starts: &[usize; LANES],
    sizes: &[usize; LANES],
    whole: usize,
) -> LaneDigests
    requires whole_blocks { whole % 64 ≡ 0 }
    requires inside { (j : ℕ) → j < LANES
        → slice_index starts.now j + slice_index sizes.now j ≤ length buffer.now }
    requires fit { (j : ℕ) → j < LANES → slice_index sizes.now j ≤ whole }
    ensures own { (j : ℕ) → j < LANES
        → IsOwnDigest buffer.now starts.now sizes.now result.own j }
    ensures filled { (j : ℕ) → j < LANES
        → IsDigest buffer.now whole starts.now sizes.now result.filled j }
{
    let cuts = CutsInLanes {
        buffer,
        starts,
        sizes,
    };
    let mut batch = Batch::new();
    let mut own = [[0; 20]; LANES];
    let mut at = 0;
    'stretches: while at < whole {
        write_ended(&batch, cuts, whole, at, &mut own);
        let next = next_end(sizes, at, whole);
        take_stretch(&mut batch, cuts, whole, at, next);
        at = next;
    }
    write_ended(&batch, cuts, whole, at, &mut own);
    LaneDigests {
        own,
        filled: batch.finish(),
    }
}

// Where the whole blocks of a cut of this size end.
#[inline(always)]
fn end_of(size: usize) -> usize
    ensures { result ≡ end_of size }
{
    64 * (size / 64)
}

// The next byte at which the whole blocks of some cut end, or all cuts.
fn next_end(sizes: &[usize; LANES], at: usize, whole: usize) -> usize
    requires whole_blocks { whole % 64 ≡ 0 }
    requires some { at < whole }
    ensures later { at < result }
    ensures within { result ≤ whole }
    ensures whole_blocks { result % 64 ≡ 0 }
    ensures next { (j : ℕ) → j < LANES → at < end_of (slice_index sizes.now j)
        → result ≤ end_of (slice_index sizes.now j) }
{
    let mut next = whole;
    'lanes: for j in 0..LANES {
        let end = end_of(sizes[j]);
        if at < end {
            next = next.min(end);
        }
    }
    next
}

// Takes the bytes from one place to another of each cut, filled up with zeros.
fn take_stretch(batch: &mut Batch, cuts: CutsInLanes<'_>, whole: usize, from: usize, to: usize)
    requires begin { from % 64 ≡ 0 }
    requires end { to % 64 ≡ 0 }
    requires order { from ≤ to }
    requires within { to ≤ whole }
    requires inside { (j : ℕ) → j < LANES
        → slice_index cuts.starts.now j + slice_index cuts.sizes.now j ≤ length cuts.buffer.now }
    requires fit { (j : ℕ) → j < LANES → slice_index cuts.sizes.now j ≤ whole }
    requires taken { HaveTaken batch.old cuts.buffer.now cuts.starts.now cuts.sizes.now whole from }
    ensures { HaveTaken batch.new cuts.entry.buffer.now cuts.entry.starts.now
        cuts.entry.sizes.now whole to }
{
    let part_starts = starts_from(cuts.starts, cuts.sizes, from);
    let part_sizes = sizes_from(cuts.sizes, from, to - from);
    batch.update(cuts.buffer, &part_starts, &part_sizes, to - from);
}

// Where the cuts go on from this byte of them.
fn starts_from(starts: &[usize; LANES], sizes: &[usize; LANES], from: usize) -> [usize; LANES]
    requires { (j : ℕ) → j < LANES
        → slice_index starts.now j + slice_index sizes.now j ≤ usize.MAX }
    ensures { (j : ℕ) → j < LANES → slice_index result j
        ≡ slice_index starts.now j + min from (slice_index sizes.now j) }
{
    let mut found = [0; LANES];
    'lanes: for j in 0..LANES {
        found[j] = starts[j] + from.min(sizes[j]);
    }
    found
}

// How many bytes the cuts have from this one on, at most as many as these.
fn sizes_from(sizes: &[usize; LANES], from: usize, most: usize) -> [usize; LANES]
    ensures { (j : ℕ) → j < LANES → slice_index result j
        ≡ min (slice_index sizes.now j - from) most }
{
    let mut found = [0; LANES];
    'lanes: for j in 0..LANES {
        found[j] = sizes[j].saturating_sub(from).min(most);
    }
    found
}

// Writes the digests of the cuts whose whole blocks end here.
fn write_ended(
    batch: &Batch,
    cuts: CutsInLanes<'_>,
    whole: usize,
    at: usize,
    own: &mut [[u8; 20]; LANES],
)
    requires inside { (j : ℕ) → j < LANES
        → slice_index cuts.starts.now j + slice_index cuts.sizes.now j ≤ length cuts.buffer.now }
    requires taken { HaveTaken batch.now cuts.buffer.now cuts.starts.now cuts.sizes.now whole at }
    requires before { HaveEnded cuts.buffer.now cuts.starts.now cuts.sizes.now own.old at }
    ensures { HaveEnded cuts.entry.buffer.now cuts.entry.starts.now cuts.entry.sizes.now own.new
        (at + 1) }
{
    let CutsInLanes {
        buffer,
        starts,
        sizes,
    } = cuts;
    'lanes: for j in 0..LANES {
        if end_of(sizes[j]) == at {
            own[j] = ended(batch, j, &buffer[starts[j]..starts[j] + sizes[j]], at);
        }
    }
}

// The digest of the cut in a lane. Condition: its whole blocks end here.
fn ended(batch: &Batch, lane: usize, cut: &[u8], at: usize) -> [u8; 20]
    requires lane { lane < LANES }
    requires end { at ≡ end_of (length cut.now) }
    ensures { (zeros : ℕ) → HasTaken batch.now lane (take at (cut.now ++ replicate zeros 0))
        → result ≡ sha1 cut.now }
{
    batch.ended(lane, &cut[at..])
}
