//! Reading a source, whatever takes the bytes: to its end, or as many bytes as are to come; and how
//! bytes are handed out.
ghost use Rattle.std.specs.Prelude.{◌≡◌, ℕ, ◌+◌, ◌-◌, ◌^◌, ◌<◌, ◌≤◌, List, [], ◌++◌, length, vec_len, IfOk, OnErr};
ghost use Rattle.std.specs.Vec.{vec_capacity};
ghost use Rattle.benc.specs.Device.{CountsFault};
ghost use Rattle.folders.specs.Exactly.{TakesExactly};
ghost use Rattle.folders.specs.TakeAll.{Fills, IsReadWithin, ReadAll};
ghost use Rattle.folders.specs.declared.taking.ReadFault.TheVariants as fault;

use benc::{DeviceFault, Source};
use std::alloc::AllocError;
use std::mem::replace;
use thiserror::Error;

/// What takes the bytes of a reading, part by part.
pub trait Consumer {
    // There is room for this many bytes more.
    ghost has_room: { Self → ℕ → Type 0 };

    // It was given these bytes.
    ghost took: { Self → List ℕ → Self → Type 0 };

    /// Takes these bytes.
    fn take(&mut self, part: &[u8])
        requires { has_room self.old (length part.now) }
        ensures { took self.old part.now self.new };

    ghost none: { (t : Self) → took t [] t };

    ghost joins: { (a b c : Self) (x y : List ℕ) → took a x b → took b y c → took a (x ++ y) c };

    ghost room_left: { (a b : Self) (x : List ℕ) (n : ℕ) → took a x b
        → has_room a (length x + n) → has_room b n };

    ghost room_for_less: { (t : Self) (m n : ℕ) → has_room t n → m ≤ n → has_room t m };
}

// Nothing takes the bytes.
impl Consumer for () {
    ghost use Rattle.std.specs.Prelude.{⊤};

    ghost has_room = { λ _ _. ⊤ };

    ghost took = { λ _ _ _. ⊤ };

    fn take(&mut self, _part: &[u8]) {}

    ghost none = { λ _. tt };

    ghost joins = { λ _ _ _ _ _ _ _. tt };

    ghost room_left = { λ _ _ _ _ _ _. tt };

    ghost room_for_less = { λ _ _ _ _ _. tt };
}

/// Hands bytes out, and leaves none in their place. It takes no memory.
pub fn taken(bytes: &mut Vec<u8>) -> Vec<u8>
    ensures taken { result ≡ bytes.old }
    ensures none { vec_len bytes.new ≡ 0 }
    ensures no_memory { vec_capacity bytes.new ≡ 0 }
{
    let none = Vec::new(*bytes.allocator());
    replace(bytes, none)
}

/// The length of a buffer through which files are read: eight blocks, which their hashing takes at
/// once.
pub const BUFFER_LENGTH: usize = 131072;

/// Reads a source through the buffer to its end, or to one byte past the bound. `Some`: it ended,
/// and all its bytes, this many, went to the consumer, a full buffer at a time. `None`: it has more
/// bytes than the bound; after that and after a fault nothing is said of the consumer. A fault
/// comes before the bound is passed. Conditions: the buffer is not empty, the consumer has room for
/// the bound, and the bound is below 2^63.
pub fn take_all<F: Source, T: Consumer>(
    source: &mut F,
    bound: u64,
    buffer: &mut [u8],
    consumer: &mut T,
) -> Result<Option<u64>, DeviceFault>
    requires some { 0 < length buffer.old }
    requires room { T.has_room consumer.old bound }
    requires small { bound < 2 ^ 63 }
    ensures no_further { IsReadWithin (bound + 1) (F.seen source.old) (F.seen source.new) }
    ensures blamed { OnErr result (IsReadWithin bound (F.seen source.old) (F.seen source.new)) }
    ensures counts { CountsFault (F.seen source.old).faults (F.seen source.new).faults result }
    ensures read { IfOk result (ReadAll T.took (F.seen source.old) (F.seen source.new) bound
        consumer.old consumer.new) }
{
    let mut count = 0;
    'parts: loop {
        let room = (bound - count + 1).min(buffer.len() as u64) as usize;
        let taken = fill(source, &mut buffer[..room])?;
        count += taken as u64;
        if count > bound {
            return Ok(None);
        }
        consumer.take(&buffer[..taken]);
        if taken < room {
            return Ok(Some(count));
        }
    }
}

/// Reads until the buffer is full or the source ends: how many bytes of the buffer are filled. A
/// fault comes before it is full.
pub fn fill<F: Source>(source: &mut F, buffer: &mut [u8]) -> Result<usize, DeviceFault>
    ensures filled { IfOk result (Fills (F.seen source.old) (F.seen source.new) buffer.new) }
    ensures no_further { IsReadWithin (length buffer.old) (F.seen source.old)
        (F.seen source.new) }
    ensures blamed { OnErr result
        ((F.seen source.old).limit < (F.seen source.new).limit + length buffer.old) }
    ensures counts { CountsFault (F.seen source.old).faults (F.seen source.new).faults result }
{
    let mut filled = 0;
    'reads: while filled < buffer.len() {
        match source.read(&mut buffer[filled..])? {
            0 => break 'reads,
            count => filled += count,
        }
    }
    Ok(filled)
}

/// Why an opened file was not read, or what it holds could not be kept.
#[derive(Clone, Copy, Debug, PartialEq, Eq, Drop, Error)]
pub enum ReadFault {
    /// A read failed.
    #[error("the file cannot be read")]
    Device,
    /// Memory for what is kept of the file was refused.
    #[error("out of memory")]
    NoMemory,
}

impl From<DeviceFault> for ReadFault {
    ghost from_gives = { λ _ e. e ≡ fault.Device };

    fn from(_error: DeviceFault) -> ReadFault {
        ReadFault::Device
    }
}

impl From<AllocError> for ReadFault {
    ghost from_gives = { λ _ e. e ≡ fault.NoMemory };

    fn from(_error: AllocError) -> ReadFault {
        ReadFault::NoMemory
    }
}

/// Reads this many bytes of a source, which go to the consumer, a full buffer at a time. False: it
/// has fewer, all of which went there. Before a fault some bytes went there. No byte behind them is
/// read, and a fault comes before the last of them is. Conditions: the buffer is not
/// empty, and the consumer has room for them.
pub fn take_exactly<F: Source, T: Consumer>(
    source: &mut F,
    size: u64,
    buffer: &mut [u8],
    consumer: &mut T,
) -> Result<bool, DeviceFault>
    requires some { 0 < length buffer.old }
    requires room { T.has_room consumer.old size }
    ensures read { IfOk result (TakesExactly T.took (F.seen source.old) (F.seen source.new) size
        consumer.old consumer.new) }
    ensures partly { OnErr result ((bytes : List ℕ) × T.took consumer.old bytes consumer.new) }
    ensures no_further { IsReadWithin size (F.seen source.old) (F.seen source.new) }
    ensures blamed { OnErr result ((F.seen source.old).limit < (F.seen source.new).limit + size) }
    ensures counts { CountsFault (F.seen source.old).faults (F.seen source.new).faults result }
{
    let mut count: u64 = 0;
    'parts: while count < size {
        let room = (size - count).min(buffer.len() as u64) as usize;
        let taken = fill(source, &mut buffer[..room])?;
        consumer.take(&buffer[..taken]);
        count += taken as u64;
        if taken < room {
            return Ok(false);
        }
    }
    Ok(true)
}
