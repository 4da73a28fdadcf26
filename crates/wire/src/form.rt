//! What a record says beside its frames: its form, and the direction of each.
ghost use Rattle.std.specs.Prelude.{◌≡◌, ◌≢◌, MatchOption};
ghost use Rattle.wire.specs.Records.{form_number, direction_byte};

/// What a record of form 2 begins with.
pub const HEADER: [u8; 8] = *b"\xff\xff\xff\xffBTH2";

/// The form of a record.
#[derive(Clone, Copy)]
pub(crate) enum Form {
    /// Frames that came in, one after the other.
    One,
    /// A header, and then frames with a byte for the direction before each.
    Two,
}

impl Form {
    /// Its number.
    pub(crate) fn number(self) -> u8
        ensures { result ≡ form_number self }
    {
        match self {
            Form::One => 1,
            Form::Two => 2,
        }
    }
}

/// Whether a frame came in or went out.
#[derive(Clone, Copy, Debug, PartialEq, Eq)]
pub enum Direction {
    /// It came from the peer.
    In,
    /// It was sent to the peer.
    Out,
}

impl Direction {
    /// The byte that stands for it before a frame of a record of form 2.
    pub fn byte(self) -> u8
        ensures { result ≡ direction_byte self }
    {
        match self {
            Direction::In => 0,
            Direction::Out => 1,
        }
    }

    /// The direction of a byte, if it is one.
    pub(crate) fn of(byte: u8) -> Option<Direction>
        ensures { MatchOption result ((byte ≢ 0) × (byte ≢ 1)) (λ d. byte ≡ direction_byte d) }
    {
        match byte {
            0 => Some(Direction::In),
            1 => Some(Direction::Out),
            _ => None,
        }
    }
}
