//! What a refusal of a torrent has beside its number, as C sees it.

ghost use Rattle.std.specs.Prelude.{◌≡◌};
ghost use Rattle.c_layouts.specs.Refusals.{fault_number, key_number, nothing_more, refusal_info};

use benc::FaultKind;
use filetree::{Key, Refusal};

/// What a refusal of a torrent has beside its number: of bytes that are no bencoding the kind of
/// the first fault, and where the failing item begins; of a key that is missing or has another kind
/// of value, the key. Where there is no fault or no key, the number is 0.
#[repr(C)]
#[derive(Clone, Copy)]
pub struct RefusalInfo {
    pub offset: u64,
    pub fault: u32,
    pub key: u32,
}

/// Neither a fault nor a key.
pub const NOTHING_MORE: RefusalInfo = RefusalInfo {
    offset: 0,
    fault: 0,
    key: 0,
};

const FAULT_TRUNCATED: u32 = 1;

const FAULT_BAD_START: u32 = 2;

const FAULT_BAD_INTEGER: u32 = 3;

const FAULT_INTEGER_RANGE: u32 = 4;

const FAULT_BAD_LENGTH: u32 = 5;

const FAULT_KEY_ORDER: u32 = 6;

const FAULT_TRAILING: u32 = 7;

const FAULT_TOO_DEEP: u32 = 8;

const KEY_TOP: u32 = 1;

const KEY_INFO: u32 = 2;

const KEY_META_VERSION: u32 = 3;

const KEY_FILE_TREE: u32 = 4;

const KEY_NAME: u32 = 5;

const KEY_PIECE_LENGTH: u32 = 6;

const KEY_PIECE_LAYERS: u32 = 7;

/// What the refusal has, for C.
pub fn lay_out_refusal(refusal: &Refusal) -> RefusalInfo
    ensures { result ≡ refusal_info refusal.now }
{
    match refusal {
        Refusal::NotBencode(fault) => RefusalInfo {
            offset: fault.offset as u64,
            fault: number_of_fault(fault.kind),
            key: 0,
        },
        Refusal::Missing(key) | Refusal::WrongType(key) => RefusalInfo {
            offset: 0,
            fault: 0,
            key: number_of_key(*key),
        },
        _ => NOTHING_MORE,
    }
}

// The number of a fault's kind. That memory was refused is no fault of the bytes.
fn number_of_fault(kind: FaultKind) -> u32
    ensures { result ≡ fault_number kind }
{
    match kind {
        FaultKind::Truncated => FAULT_TRUNCATED,
        FaultKind::BadStart => FAULT_BAD_START,
        FaultKind::BadInteger => FAULT_BAD_INTEGER,
        FaultKind::IntegerRange => FAULT_INTEGER_RANGE,
        FaultKind::BadLength => FAULT_BAD_LENGTH,
        FaultKind::KeyOrder => FAULT_KEY_ORDER,
        FaultKind::Trailing => FAULT_TRAILING,
        FaultKind::TooDeep => FAULT_TOO_DEEP,
        FaultKind::NoMemory => 0,
    }
}

// The number of a key.
fn number_of_key(key: Key) -> u32
    ensures { result ≡ key_number key }
{
    match key {
        Key::Top => KEY_TOP,
        Key::Info => KEY_INFO,
        Key::MetaVersion => KEY_META_VERSION,
        Key::FileTree => KEY_FILE_TREE,
        Key::Name => KEY_NAME,
        Key::PieceLength => KEY_PIECE_LENGTH,
        Key::PieceLayers => KEY_PIECE_LAYERS,
    }
}
