//! Pieces of a file in a row, read once, and the file's end: the nodes over them are compared with
//! their part of the piece layer, or the only piece of a file with its root, and the version 1
//! pieces with their part of what is listed.
ghost use Rattle.std.specs.Prelude.{◌≡◌, ℕ, ◌+◌, ◌-◌, ◌*◌, ◌^◌, ◌<◌, ◌≤◌, length, is_some, option_map, IfOk, IfSome, OnErr, Some, IsTrue};
ghost use Rattle.std.specs.Vec.{vec_capacity};
ghost use Rattle.benc.specs.Device.{CountsFault};
ghost use Rattle.folders.specs.CutFeeds.{CutsStandAt};
ghost use Rattle.folders.specs.TakeAll.{IsReadWithin};
ghost use Rattle.folders.specs.Verdicts.{IsFileOf};
ghost use Rattle.hashtree.specs.Bits.{AreClear};
ghost use Rattle.opening.specs.Description.{Version1};
ghost use Rattle.opening.specs.Seen.{file_entry, tree_entry, version1};
ghost use Rattle.parts.specs.FilePieces.{FindsPieces, HasNumbersBelow, TakesRowBytes};
ghost use Rattle.parts.specs.RowChecks.{IsRowCuts, IsRowHashes, IsRowLayer, JudgesPieces, stream_part};
ghost use Rattle.parts.specs.Spans.{IsSpan, span_bytes};

use crate::places::Span;
use benc::{DeviceFault, Source};
use folders::{Cuts, FileReader, RowFeed, taken};
use hashtree::{Hash, PieceCheck, Shape};
use opening::{File, Torrent, TreeInfo};
use pieces::V1;
use std::alloc::Global;
use std::slice;

/// What was found of a row of pieces of one file. The numbers are those within the file.
#[derive(Clone, Copy)]
pub(crate) struct Found {
    /// Whether the root over the row alone is the file's.
    pub(crate) root_is: bool,
    /// The first bad piece.
    pub(crate) bad: Option<u64>,
    /// The first whose version 1 piece is bad.
    pub(crate) bad_cut: Option<u64>,
}

/// What was found of the pieces of an opened file. `None`: the content is not as long as it is to
/// be.
pub(crate) type Read = Result<Option<Found>, DeviceFault>;

/// Reads some pieces of a file, and sets the bits of those that are whole and good.
#[derive(Drop)]
pub(crate) struct PieceReader<'a, 't> {
    /// The torrent.
    pub(crate) torrent: &'a Torrent<'t>,
    /// The file.
    pub(crate) file: &'a File<'t>,
    /// The pieces.
    pub(crate) span: Span,
    /// Their bits, by their places in the row.
    pub(crate) bits: Vec<u8>,
}

impl<F: Source> FileReader<F, Read> for PieceReader<'_, '_> {
    ghost use Rattle.parts.specs.PieceReads.{MayReadPieces, ReadsPieces};

    ghost may_read = { λ r. MayReadPieces r.torrent.now (file_entry r.file.now) r.span r.bits };

    ghost reads = { λ r s. ReadsPieces r.torrent.now (file_entry r.file.now) r.span r.bits s.bits };

    fn read(&mut self, file: &mut F, buffer: &mut [u8]) -> Read {
        read_pieces(
            file,
            self.torrent,
            self.file,
            self.span,
            &mut self.bits,
            buffer,
        )
    }
}

/// Reads and judges some pieces of a file, and if the file ends there, its end too; and sets the
/// bits of the pieces that are whole and good. Nothing is read after the end was seen. Conditions:
/// the torrent has the file, no bit is set, and the buffer is not empty.
pub(crate) fn read_pieces<F: Source>(
    source: &mut F,
    torrent: &Torrent<'_>,
    file: &File<'_>,
    span: Span,
    bits: &mut Vec<u8>,
    buffer: &mut [u8],
) -> Read
    requires some { 0 < length buffer.old }
    requires file { IsFileOf torrent.now (file_entry file.now) }
    requires span { IsSpan torrent.now (file_entry file.now) span }
    requires clear { AreClear bits.old.items }
    ensures found { IfOk result (FindsPieces torrent.now (file_entry file.now) span
        (F.seen source.old).left bits.new.items) }
    ensures inside { IfOk result (λ found. IfSome found (HasNumbersBelow span.to)) }
    ensures room { vec_capacity bits.new ≡ vec_capacity bits.old }
    ensures length { length bits.new.items ≡ length bits.old.items }
    ensures no_further { IsReadWithin (span_bytes torrent.now (file_entry file.now) span + 1)
        (F.seen source.old) (F.seen source.new) }
    ensures own { (IsTrue span.ends → ⊥)
        → IsReadWithin (span_bytes torrent.now (file_entry file.now) span)
        (F.seen source.old) (F.seen source.new) }
    ensures taken { IfOk result (TakesRowBytes (span_bytes torrent.now (file_entry file.now) span)
        (F.seen source.old) (F.seen source.new)) }
    ensures blamed { OnErr result (IsReadWithin
        (span_bytes torrent.now (file_entry file.now) span) (F.seen source.old)
        (F.seen source.new)) }
    ensures counts { CountsFault (F.seen source.old).faults (F.seen source.new).faults result }
{
    torrent.recall_sound();
    let Some(found) = judge(source, torrent, file, span, bits, buffer)? else {
        return Ok(None);
    };
    if !span.ends {
        return Ok(Some(found));
    }
    let mut end = [0u8; 1];
    if source.read(&mut end)? > 0 {
        return Ok(None);
    }
    Ok(Some(found))
}

// Reads and judges the pieces. `None`: the source has fewer bytes than they.
fn judge<F: Source>(
    source: &mut F,
    torrent: &Torrent<'_>,
    file: &File<'_>,
    span: Span,
    bits: &mut Vec<u8>,
    buffer: &mut [u8],
) -> Read
    requires some { 0 < length buffer.old }
    requires file { IsFileOf torrent.now (file_entry file.now) }
    requires span { IsSpan torrent.now (file_entry file.now) span }
    requires clear { AreClear bits.old.items }
    ensures judged { IfOk result (JudgesPieces torrent.now (file_entry file.now) span.from
        span.to (F.seen source.old) (F.seen source.new) bits.new.items) }
    ensures inside { IfOk result (λ found. IfSome found (HasNumbersBelow span.to)) }
    ensures room { vec_capacity bits.new ≡ vec_capacity bits.old }
    ensures length { length bits.new.items ≡ length bits.old.items }
    ensures no_further { IsReadWithin (span_bytes torrent.now (file_entry file.now) span)
        (F.seen source.old) (F.seen source.new) }
    ensures blamed { OnErr result ((F.seen source.old).limit
        < (F.seen source.new).limit + span_bytes torrent.now (file_entry file.now) span) }
    ensures counts { CountsFault (F.seen source.old).faults (F.seen source.new).faults result }
{
    torrent.recall_sound();
    if span.from == span.to {
        return Ok(Some(Found {
            root_is: true,
            bad: None,
            bad_cut: None,
        }));
    }
    read_row(source, torrent, file, span, bits, buffer)
}

// Reads and judges these pieces of a file, and sets the bits of those that are whole and good, by
// their places in the row. `None`: the source has fewer bytes than they. No byte behind them is
// read. Conditions: the torrent has the file, the file has the pieces, of which there is one, no
// bit is set, and the buffer is not empty.
fn read_row<F: Source>(
    source: &mut F,
    torrent: &Torrent<'_>,
    file: &File<'_>,
    span: Span,
    bits: &mut Vec<u8>,
    buffer: &mut [u8],
) -> Result<Option<Found>, DeviceFault>
    requires some { 0 < length buffer.old }
    requires file { IsFileOf torrent.now (file_entry file.now) }
    requires span { IsSpan torrent.now (file_entry file.now) span }
    requires piece { span.from < span.to }
    requires clear { AreClear bits.old.items }
    ensures judged { IfOk result (JudgesPieces torrent.now (file_entry file.now) span.from
        span.to (F.seen source.old) (F.seen source.new) bits.new.items) }
    ensures inside { IfOk result (λ found. IfSome found (HasNumbersBelow span.to)) }
    ensures room { vec_capacity bits.new ≡ vec_capacity bits.old }
    ensures length { length bits.new.items ≡ length bits.old.items }
    ensures no_further { IsReadWithin (span_bytes torrent.now (file_entry file.now) span)
        (F.seen source.old) (F.seen source.new) }
    ensures blamed { OnErr result ((F.seen source.old).limit
        < (F.seen source.new).limit + span_bytes torrent.now (file_entry file.now) span) }
    ensures counts { CountsFault (F.seen source.old).faults (F.seen source.new).faults result }
{
    torrent.recall_sound();
    let Some(number) = file.tree else {
        unreachable!();
    };
    let tree = &torrent.trees()[number];
    let piece_length = torrent.piece_length();
    let size = (piece_length * span.to).min(file.length) - piece_length * span.from;
    let layer = compared_layer(torrent, file);
    let mut row = RowFeed {
        check: PieceCheck::of_row(
            Shape::of(size).unwrap(),
            layer,
            hashes(torrent, file, tree, span),
        ),
        bits: taken(bits),
        cuts: cuts(*bits.allocator(), torrent, file, span),
    };
    let judged = row.judge(source, size, layer, buffer);
    *bits = row.bits;
    let Some(found) = judged? else {
        return Ok(None);
    };
    Ok(Some(Found {
        root_is: found.root == tree.root,
        bad: numbered(span.from, found.other),
        bad_cut: numbered(span.from, found.bad_cut),
    }))
}

// The layer in which a file's pieces are compared: that of its root if it has one piece.
fn compared_layer(torrent: &Torrent<'_>, file: &File<'_>) -> u32
    requires file { IsFileOf torrent.now (file_entry file.now) }
    requires some { 0 < file.now.length }
    ensures layer { IsRowLayer torrent.now (file_entry file.now) result }
    ensures bound { result ≤ 32 }
{
    torrent.recall_sound();
    Shape::of(torrent.piece_length().min(file.length))
        .unwrap()
        .height()
}

// The hashes with which these pieces are compared: their part of the piece layer, or the root if
// the file has one piece.
fn hashes<'t>(
    torrent: &Torrent<'_>,
    file: &File<'_>,
    tree: &'t TreeInfo<'_>,
    span: Span,
) -> &'t [Hash]
    requires order { span.from ≤ span.to }
    requires listed { torrent.now.piece_length < file.now.length
        → span.to ≤ length tree.now.layer.now }
    ensures { IsRowHashes torrent.now (file_entry file.now) (tree_entry tree.now) span.from span.to
        result.now }
{
    if file.length <= torrent.piece_length() {
        slice::from_ref(&tree.root)
    } else {
        &tree.layer[span.from as usize..span.to as usize]
    }
}

// The version 1 pieces of these pieces, of which nothing was given yet.
fn cuts<'t>(alloc: Global, torrent: &Torrent<'t>, file: &File<'_>, span: Span) -> Cuts<'t>
    requires file { IsFileOf torrent.now (file_entry file.now) }
    requires span { IsSpan torrent.now (file_entry file.now) span }
    requires piece { span.from < span.to }
    ensures begins { is_some result.feed ≡ is_some torrent.now.v1 }
    ensures stands { CutsStandAt result.feed 0 }
    ensures part { (v : Version1) → torrent.now.v1 ≡ Some v → IsRowCuts torrent.now
        (file_entry file.now) span v result.feed }
{
    torrent.recall_sound();
    let piece_length = torrent.piece_length();
    let first = file.first_piece;
    let part = match torrent.v1() {
        Some(v1) => Some(stream_part(v1, piece_length, first + span.from, first + span.to)),
        None => None,
    };
    Cuts::of(alloc, part.as_ref(), piece_length)
}

// These pieces of the version 1 stream.
fn stream_part<'t>(v1: &V1<'t>, piece_length: u64, from: u64, to: u64) -> V1<'t>
    requires order { from ≤ to }
    requires listed { to ≤ length v1.now.pieces.now }
    requires there { piece_length * from ≤ v1.now.total }
    requires fits { piece_length * to < 2 ^ 64 }
    ensures { version1 result ≡ stream_part piece_length (version1 v1.now) from to }
{
    V1 {
        pieces: &v1.pieces[from as usize..to as usize],
        total: v1.total.min(piece_length * to) - piece_length * from,
    }
}

// The number within the file of this place of a row that begins with this piece.
fn numbered(from: u64, place: Option<u64>) -> Option<u64>
    requires { IfSome place (λ n. from + n < 2 ^ 64) }
    ensures { result ≡ option_map (λ n. from + n) place }
{
    match place {
        Some(place) => Some(from + place),
        None => None,
    }
}
