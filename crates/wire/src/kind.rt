//! The messages of a known kind, by their ids.
ghost use Rattle.std.specs.Prelude.{◌≡◌, ◌↔◌, IsTrue, MatchOption};
ghost use Rattle.wire.specs.Meaning.{IsKnownId, IsRightSize};

/// The longest body that is kept, in bytes.
pub(crate) const MAX_BODY: u32 = 263_217;

/// The id, the index and the begin of a block of a piece, in bytes.
pub(crate) const MIN_PIECE: u32 = 9;

/// The size of a hash request in bytes: its id and its five fields (BEP 52, "new messages").
pub const ASK_SIZE: u32 = 49;

/// One hash, in bytes.
pub(crate) const HASH_SIZE: u32 = 32;

const PIECE_ID: u8 = 7;

/// The id of a hash request (BEP 52, "hash request").
pub const REQUEST_ID: u8 = 21;

const HASHES_ID: u8 = 22;

const REJECT_ID: u8 = 23;

/// The kind of a message.
#[derive(Clone, Copy)]
pub(crate) enum Kind {
    /// A block of a piece.
    Piece,
    /// A hash request.
    Request,
    /// Hashes.
    Hashes,
    /// A hash reject.
    Reject,
}

impl Kind {
    ghost use Rattle.wire.specs.Kind.{id_of};

    /// The kind of a message with this id, if it is known.
    pub(crate) fn of(id: u8) -> Option<Kind>
        ensures { MatchOption result (¬ IsKnownId id) (λ kind. id ≡ id_of kind) }
    {
        match id {
            PIECE_ID => Some(Kind::Piece),
            REQUEST_ID => Some(Kind::Request),
            HASHES_ID => Some(Kind::Hashes),
            REJECT_ID => Some(Kind::Reject),
            _ => None,
        }
    }

    /// The first byte of its body.
    pub(crate) fn id(self) -> u8
        ensures { result ≡ id_of self }
    {
        match self {
            Kind::Piece => PIECE_ID,
            Kind::Request => REQUEST_ID,
            Kind::Hashes => HASHES_ID,
            Kind::Reject => REJECT_ID,
        }
    }

    /// Whether its body may have this length, its id counted.
    pub(crate) fn takes(self, len: u32) -> bool
        ensures { IsTrue result ↔ IsRightSize (id_of self) len }
    {
        match self {
            Kind::Piece => MIN_PIECE <= len && len <= MAX_BODY,
            Kind::Hashes => {
                ASK_SIZE <= len && len <= MAX_BODY && (len - ASK_SIZE) % HASH_SIZE == 0
            },
            Kind::Request | Kind::Reject => len == ASK_SIZE,
        }
    }
}
