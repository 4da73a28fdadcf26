//! One visit of a path: what stands there is opened, read, and handed back.
ghost use Rattle.std.specs.Prelude.{◌≡◌, ◌<◌, length, map};
ghost use Rattle.folders.specs.SeekVisits.{VisitsForAt};
ghost use Rattle.folders.specs.Visits.{HandsOver, StaysUnasked, VisitsFor};

use crate::shelf::{SeekShelf, Shelf};
use benc::{DeviceFault, Source};

/// What reads an opened file, and what it answers of it.
pub trait FileReader<F: Source, A> {
    ghost use Rattle.benc.specs.Device.{SourceSeen};

    // Whether it may be asked to read.
    ghost may_read: { Self → Type 0 };

    // It was so and is so afterwards, answered this of a file, and read it so.
    ghost reads: { Self → Self → A → SourceSeen → SourceSeen → Type 0 };

    /// Reads what is to be read of a file, through the buffer. Conditions: it may be asked to, and
    /// the buffer is not empty.
    fn read(&mut self, file: &mut F, buffer: &mut [u8]) -> A
        requires some { 0 < length buffer.old }
        requires ready { may_read self.old }
        ensures { reads self.old self.new result (F.seen file.old) (F.seen file.new) };
}

/// Opens the file under this path, has it read, and hands it back: what the reader answered of it,
/// or `None` if nothing is there. The fault is that of the opening; it and those of the reads are
/// counted. What is on the shelf stays, and so does a reader that was not asked. Conditions: the
/// reader may be asked to read, and the buffer is not empty.
pub fn visit<S: Shelf, A, R: FileReader<S::File, A>>(
    shelf: &mut S,
    path: &[&str],
    reader: &mut R,
    buffer: &mut [u8],
) -> Result<Option<A>, DeviceFault>
    requires some { 0 < length buffer.old }
    requires ready { R.may_read reader.old }
    ensures visits { VisitsFor S.Shelf S.File.seen (R.reads reader.old reader.new) shelf.old
        (map (λ s. s.now) path.now) result shelf.new }
    ensures unasked { StaysUnasked reader.old reader.new result }
    ensures stays { S.contents shelf.new ≡ S.contents shelf.old }
{
    let opened = shelf.open(path);
    read_opened(shelf, opened, reader, buffer)
}

/// The same of the file from this byte on.
pub fn visit_at<S: SeekShelf, A, R: FileReader<S::File, A>>(
    shelf: &mut S,
    path: &[&str],
    offset: u64,
    reader: &mut R,
    buffer: &mut [u8],
) -> Result<Option<A>, DeviceFault>
    requires some { 0 < length buffer.old }
    requires ready { R.may_read reader.old }
    ensures visits { VisitsForAt S.Shelf S.opens_at S.File.seen (R.reads reader.old reader.new)
        shelf.old (map (λ s. s.now) path.now) offset result shelf.new }
    ensures unasked { StaysUnasked reader.old reader.new result }
    ensures stays { S.Shelf.contents shelf.new ≡ S.Shelf.contents shelf.old }
{
    let opened = shelf.open_at(path, offset);
    read_opened(shelf, opened, reader, buffer)
}

// Has what was opened read, and hands it back.
fn read_opened<S: Shelf, A, R: FileReader<S::File, A>>(
    shelf: &mut S,
    opened: Result<Option<S::File>, DeviceFault>,
    reader: &mut R,
    buffer: &mut [u8],
) -> Result<Option<A>, DeviceFault>
    requires some { 0 < length buffer.old }
    requires ready { R.may_read reader.old }
    ensures hands { HandsOver S.Shelf S.File.seen (R.reads reader.old reader.new) shelf.old opened
        result shelf.new }
    ensures unasked { StaysUnasked reader.old reader.new result }
    ensures stays { S.contents shelf.new ≡ S.contents shelf.old }
{
    match opened {
        Ok(Some(mut file)) => {
            let answer = reader.read(&mut file, buffer);
            shelf.close(file);
            Ok(Some(answer))
        }
        Ok(None) => Ok(None),
        Err(fault) => Err(fault),
    }
}
