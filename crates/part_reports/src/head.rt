//! The first line of a report.
ghost use Rattle.std.specs.Prelude.{◌≡◌, ℕ, ◌<◌, List, ◌∷◌, ◌++◌, MatchOption, Some};
ghost use Rattle.hex.specs.Hex.{encode_lower};
ghost use Rattle.lines.specs.Reading.{BeginsWith};
ghost use Rattle.lines.specs.Table.{row_of};
ghost use Rattle.part_reports.specs.Heads.{HasHead, HasNoHead, IsInfoHash, IsOfHash, first_line, first_row};

use crate::kind::Kind;
use crate::words::first_number;
use lines::{Line, Parted, strip_line};
use opening::Torrent;

/// What the first line of a report says.
#[derive(Clone, Copy, Drop)]
pub(crate) struct Head {
    /// The number of the part, from 0.
    pub(crate) part: u64,
    /// How many parts there are.
    pub(crate) count: u64,
    /// The version 2 info-hash of the torrent.
    pub(crate) hash: [u8; 32],
}

/// What the first line of a text says, if it is the first line of a report of this kind, to the
/// byte. There is such a part: it is not behind the last.
pub(crate) fn read_head(kind: Kind, text: &[u8]) -> Option<Head>
    ensures { MatchOption result (HasNoHead kind text.now)
        (λ h. IsOfHash kind text.now h.part h.count h.hash) }
{
    let head = guess(text)?;
    if head.part >= head.count {
        return None;
    }
    match strip_head(kind, &head, text) {
        Some(_) => Some(head),
        None => None,
    }
}

/// The version 2 info-hash of a torrent.
pub(crate) fn info_hash(torrent: &Torrent<'_>) -> [u8; 32]
    ensures value { result ≡ torrent.now.info_hash_v2 }
    ensures digest { IsInfoHash result }
{
    torrent.info_hash_v2()
}

/// What stands behind the first line of the report, of this kind, of this one of this many parts of
/// this torrent, if the text begins with that line. Condition: there is such a part.
pub(crate) fn behind_head<'a>(
    torrent: &Torrent<'_>,
    kind: Kind,
    part: u64,
    parts: u64,
    text: &'a [u8],
) -> Option<&'a [u8]>
    requires { part < parts }
    ensures { let line = first_line kind part parts torrent.now.info_hash_v2 in
        MatchOption result (BeginsWith line text.now → ⊥) (λ rest. text.now ≡ line ++ rest.now) }
{
    let head = Head {
        part,
        count: parts,
        hash: torrent.info_hash_v2(),
    };
    strip_head(kind, &head, text)
}

// What stands behind the first line of the report of this kind that says this, if the text begins
// with that line.
fn strip_head<'a>(kind: Kind, head: &Head, text: &'a [u8]) -> Option<&'a [u8]>
    requires { head.now.part < head.now.count }
    ensures { let line = first_line kind head.now.part head.now.count head.now.hash in
        MatchOption result (BeginsWith line text.now → ⊥) (λ rest. text.now ≡ line ++ rest.now) }
{
    strip_line(&line_of(kind, head), text)
}

// The first line of the report of this kind that says this.
fn line_of<'a>(kind: Kind, head: &'a Head) -> Line<'a>
    requires { head.now.part < head.now.count }
    ensures { row_of result ≡ first_row kind head.now.part head.now.count head.now.hash }
{
    let (part, parts, hash) = (head.part + 1, head.count, &head.hash);
    let said = match kind {
        Kind::Plain => Parted::Part { part, parts, hash },
        Kind::Marked => Parted::BadPart { part, parts, hash },
    };
    Line::Parted(said)
}

// What a first line says, by its numbers alone, whatever its words are: if it stands there, this is
// what it says.
fn guess(text: &[u8]) -> Option<Head>
    ensures { (kind : Kind) (p n : ℕ) (hash : List ℕ) → IsInfoHash hash
        → HasHead kind text.now p n hash
        → MatchOption result ⊥ (λ h. (h.part ≡ p) × (h.count ≡ n) × (h.hash ≡ hash)) }
{
    let (number, behind) = first_number(text)?;
    let (count, end) = first_number(behind)?;
    let part = number.checked_sub(1)?;
    let hash = hash_behind(end)?;
    Some(Head { part, count, hash })
}

// The info-hash whose digits stand behind the first byte.
fn hash_behind(text: &[u8]) -> Option<[u8; 32]>
    ensures { (byte : ℕ) (hash more : List ℕ) → IsInfoHash hash
        → text.now ≡ byte ∷ (encode_lower hash ++ more) → result ≡ Some hash }
{
    if text.len() < 65 {
        return None;
    }
    let mut hash = [0u8; 32];
    match hex::decode_to_slice(&text[1..65], &mut hash) {
        Ok(()) => Some(hash),
        Err(_) => None,
    }
}
