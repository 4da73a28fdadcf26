//! What holds the torrent of a session.

ghost use Rattle.std.specs.Prelude.{◌≡◌};
ghost use Rattle.opening.specs.Description.{Description};

use opening::Torrent;

/// What holds the torrent of a session: a borrow of it, or the torrent itself.
pub trait HoldsTorrent: Drop {
    /// What the torrent describes.
    ghost described: { Self → Description };

    /// The torrent.
    fn lend(&self) -> &Torrent<'_>
        ensures { result.now ≡ described self.now };
}

impl<'t> HoldsTorrent for &'t Torrent<'t> {
    ghost described = { λ t. t.now };

    fn lend(&self) -> &Torrent<'_> {
        self
    }
}

/// A torrent whose bytes live as long as the program may need them. It is a type of its own, since
/// its name has no lifetime, so that a session that owns it may be lent to any call.
#[derive(Drop)]
pub struct OwnTorrent {
    pub(crate) torrent: Torrent<'static>,
}

impl HoldsTorrent for OwnTorrent {
    ghost described = { λ t. t.torrent };

    fn lend(&self) -> &Torrent<'_> {
        &self.torrent
    }
}
