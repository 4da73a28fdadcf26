//! A torrent file is opened, and a session of it is started.
ghost use Rattle.std.specs.Prelude.{IfOk};
ghost use Rattle.uses.specs.Torrents.{IsOpened, KnowsTorrentAlone};

use metainfo::{Refusal, Torrent};
use session::{NoMemory, NodeMap, Session};
use std::alloc::Global;

/// Opens a torrent file (BEP 52, "metainfo files"): `Ok` only with the torrent that the bytes
/// describe; bytes that describe one (PROVED 6) give that one, or `NoMemory`. PROVED 6 is section 6
/// of `docs/PROVED.md`.
pub fn open_torrent<'a>(alloc: Global, bytes: &'a [u8]) -> Result<Torrent<'a>, Refusal>
    ensures { IsOpened bytes.now result }
{
    Torrent::open(alloc, bytes)
}

/// Starts a session of a torrent: after `Ok` exactly this is known of each tree: its root and, with
/// layers and files longer than a piece, all nodes from the piece layer up, pads too; nothing is
/// marked. `NoMemory` is the only error.
pub fn start_session<'t, N: NodeMap>(
    alloc: Global,
    torrent: &'t Torrent<'t>,
    with_layers: bool,
) -> Result<Session<'t, N>, NoMemory>
    ensures { IfOk result (KnowsTorrentAlone torrent.now with_layers) }
{
    match Session::<'t, N>::new(alloc, torrent, with_layers) {
        Ok(session) => {
            session.recall_closed_trees();
            Ok(session)
        }
        Err(NoMemory) => Err(NoMemory),
    }
}
