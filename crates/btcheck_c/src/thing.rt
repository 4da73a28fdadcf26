//! What a handle of C may hold.

use crate::file_check::FileCheck;
use crate::held::Held;
use drafting::{ComingFile, OpenDraft};
use node_maps::Paged;
use session::OwnedSession;
use short_pushes::FileRoot;

/// What a handle of C may hold. One struct for all kinds, since an export can have no type that is
/// generic in what a handle holds.
#[derive(Drop)]
pub struct Thing {
    pub(crate) kind: Kind,
}

/// One of the things.
#[derive(Drop)]
pub enum Kind {
    /// The root of a file, as its bytes come.
    Root(FileRoot),
    /// A session with its torrent.
    Session(OwnedSession<Paged>),
    /// The check of one file's bytes.
    Check(FileCheck),
    /// What is held beside a session of blocks that cannot be proved yet.
    Holdings(Held),
    /// The draft of a torrent.
    Draft(OpenDraft),
    /// A file for a draft, as its bytes come.
    File(ComingFile),
}
