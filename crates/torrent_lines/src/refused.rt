//! The line of a refusal.
ghost use Rattle.std.specs.Prelude.{◌≡◌, ◌≢◌, map, string_bytes};
ghost use Rattle.benc.specs.Device.{WroteAndFlushed};
ghost use Rattle.lines.specs.Table.{refusal_row};
ghost use Rattle.torrent_lines.specs.Refused.{refusal_text};

use benc::{Sink, WriteFault};
use filetree::Refusal;
use lines::{Line, LineSink, say_last};

/// Writes the line of a refusal, with the path of the file that it is about, if there is one,
/// and flushes. It takes no memory. After `WriteFault` a prefix of the line went out.
///
/// Condition: the refusal is neither `NoMemory` nor `Write`, which are no answers about a torrent.
pub fn refusal_line<W: Sink>(r: &Refusal, path: &[String], out: &mut W) -> Result<(), WriteFault>
    requires memory { r.now ≢ Refusal.NoMemory }
    requires sink { r.now ≢ Refusal.Write }
    ensures { WroteAndFlushed (W.seen out.old) (W.seen out.new) result
        (refusal_text r.now (map string_bytes path.now)) }
{
    refusal_line_onto(r, path, out)
}

/// Does what `refusal_line` does, onto what takes lines.
pub fn refusal_line_onto<L: LineSink>(
    r: &Refusal,
    path: &[String],
    out: &mut L,
) -> Result<(), WriteFault>
    requires memory { r.now ≢ Refusal.NoMemory }
    requires sink { r.now ≢ Refusal.Write }
    ensures { WroteAndFlushed (L.seen out.old) (L.seen out.new) result
        (L.spelled (refusal_row r.now (map string_bytes path.now))) }
{
    say_last(&Line::Refusal { refusal: r, path }, out)
}
