//! Digests that are joined to one byte string (BEP 3, "pieces"; BEP 52, "piece layers").

ghost use Rattle.std.specs.Prelude.{◌≡◌, ◌<◌, IfSome, length, option_map};
ghost use Rattle.benc.specs.View.{view};
ghost use Rattle.opening.specs.PieceLayers.{as_digests};

use benc::Value;

/// The digests of a byte string that is this many of N bytes each, joined.
pub(crate) fn digests<'a, const N: usize>(value: &Value<'a>, count: u64) -> Option<&'a [[u8; N]]>
    requires { 0 < N }
    ensures value { option_map (λ hs. hs.now) result ≡ as_digests N count (view value.now) }
    ensures count { IfSome result (λ hs. length hs.now ≡ count) }
{
    let Value::Bytes(bytes) = value else {
        return None;
    };
    let (digests, rest) = bytes.as_chunks::<N>();
    if rest.is_empty() && digests.len() as u64 == count {
        Some(digests)
    } else {
        None
    }
}
