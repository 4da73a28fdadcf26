//! How a check visits the files of a torrent: one after the other, each told of as soon as it is
//! done.
ghost use Rattle.std.specs.Prelude.{◌≡◌, ◌*◌, ◌<◌, ◌≤◌, length};
ghost use Rattle.std.specs.Vec.{vec_capacity};
ghost use Rattle.folders.specs.Verdicts.{IsFileOf};
ghost use Rattle.opening.specs.Seen.{file_entry};
ghost use Rattle.parts.specs.Checking.{shelf_and_sink};
ghost use Rattle.parts.specs.Parts.{piece_count};
ghost use Rattle.parts.specs.Rooms.{IsRoomFor};
ghost use Rattle.parts.specs.Visiting.{EndsVisits, TellsOwn};

use crate::room::{Room, buffer_of};
use crate::telling::Telling;
use crate::verdicts::{Verdicts, worse_v1};
use benc::DeviceFault;
use folders::{Report, V1Verdict};
use lines::LineSink;
use opening::{File, Torrent};

/// Visits the files of a torrent on a shelf of this type.
pub(crate) trait Visitor<S> {
    ghost use Rattle.opening.specs.Description.{Description};
    ghost use Rattle.parts.specs.Visiting.{Visiting, VisitsFile};

    // How it does.
    ghost visiting: { Self → Description → Visiting S };

    /// Opens a file if it is one to be checked, reads what is to be read of it, and hands it back.
    /// The bits tell of its pieces. Conditions: the torrent has the file, and the buffer is not
    /// empty.
    fn visit(
        &self,
        shelf: &mut S,
        torrent: &Torrent<'_>,
        file: &File<'_>,
        bits: &mut Vec<u8>,
        buffer: &mut [u8],
    ) -> Verdicts
        requires some { 0 < length buffer.old }
        requires file { IsFileOf torrent.now (file_entry file.now) }
        ensures visited { VisitsFile (visiting self.now torrent.now) torrent.now shelf.old
            (file_entry file.now) bits.new.items result shelf.new }
        ensures room { piece_count torrent.now (file_entry file.now) ≤ 8 * vec_capacity bits.old
            → piece_count torrent.now (file_entry file.now) ≤ 8 * length bits.new.items }
        ensures capacity { vec_capacity bits.new ≡ vec_capacity bits.old };
}

/// Visits each file of a torrent, and says what is wanted of it before the next one is visited.
/// No memory is taken but for the buffer, which is a smaller one if that is refused, and for long
/// pieces of a hybrid, which do without. What breaks off ends the visits. Conditions: there is room
/// for what is told, and if bits are told of, the visits' own are.
// It has a block in its frame, so it is not inlined.
#[inline(never)]
pub(crate) fn visit_files<S, V: Visitor<S>, L: LineSink>(
    room: Room,
    torrent: &Torrent<'_>,
    visitor: &V,
    shelf: &mut S,
    telling: Telling,
    out: &mut L,
) -> Result<Report, DeviceFault>
    requires room { IsRoomFor torrent.now telling room }
    requires own { TellsOwn (V.visiting visitor.now torrent.now) torrent.now telling }
    ensures ends { EndsVisits (V.visiting visitor.now torrent.now) L.spelled
        torrent.now telling (shelf_and_sink shelf.old (L.seen out.old))
        (shelf_and_sink shelf.new (L.seen out.new)) result }
    ensures stays { (V.visiting visitor.now torrent.now).contents shelf.new
        ≡ (V.visiting visitor.now torrent.now).contents shelf.old }
{
    torrent.recall_sound();
    let entries = torrent.files();
    let Room {
        mut files,
        mut bits,
    } = room;
    let mut v1 = V1Verdict::Good;
    let mut buffer = buffer_of(*files.allocator(), torrent);
    'files: for file in entries {
        let found = visitor.visit(shelf, torrent, file, &mut bits, buffer.as_mut_slice());
        files.push_reserved(found.file);
        v1 = worse_v1(v1, found.v1);
        telling.tell(torrent, file, found.file, &bits, out)?;
    }
    let v1 = match torrent.v1() {
        Some(_) => Some(v1),
        None => None,
    };
    Ok(Report { files, v1 })
}
