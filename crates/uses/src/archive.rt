//! What an archive asks of machines: whether they hold between them what a torrent says.
ghost use Rattle.std.specs.Prelude.{map, IfOk};
ghost use Rattle.std.specs.Bool.{OnTrue};
ghost use Rattle.uses.specs.Archive.{HoldAllApart};

use checker::laws::yes_of_texts_apart;
use checker::{JoinFault, join_reports};
use metainfo::Torrent;
use std::alloc::Global;

/// Whether machines that each checked a part hold all files of a torrent between them, by the
/// reports that they sent. After a yes the pieces that the reports speak of make all the files,
/// each piece as the machine has it that reported it, if every report was true there.
pub fn machines_hold_all(
    alloc: Global,
    torrent: &Torrent<'_>,
    reports: &[&[u8]],
) -> Result<bool, JoinFault>
    ensures { IfOk result (λ yes. OnTrue yes
        (HoldAllApart torrent.now (map (λ x. x.now) reports.now))) }
{
    torrent.recall_sound();
    yes_of_texts_apart();
    let report = join_reports(alloc, torrent, reports)?;
    Ok(report.yes())
}
