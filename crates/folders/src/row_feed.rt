//! A row of pieces of one file, read from a source and judged, with its version 1 pieces.
ghost use Rattle.std.specs.Prelude.{◌≡◌, ◌+◌, ◌<◌, ◌≤◌, length, IfOk, OnErr, [], is_some, IfSome};
ghost use Rattle.std.specs.Vec.{vec_capacity};
ghost use Rattle.benc.specs.Device.{CountsFault};
ghost use Rattle.folders.specs.CutFeeds.{IsFeedVerdict};
ghost use Rattle.folders.specs.Rows.{EndsEarly, EndsRow};
ghost use Rattle.folders.specs.TakeAll.{IsReadWithin};
ghost use Rattle.hashtree.specs.PieceCheck.{check_byte_count, chosen_layer, chosen_shape};

use crate::taking::{Consumer, take_exactly};
use benc::{DeviceFault, Source};
use hashtree::{Hash, PieceCheck};
use pieces::{V1, V1Feed, ends_with_piece};
use std::alloc::Global;
use std::mem::replace;

/// The version 1 pieces of a row, compared with their digests (BEP 3, "pieces"); none of a torrent
/// that is not a hybrid.
#[derive(Drop)]
pub struct Cuts<'a> {
    /// What compares them.
    pub feed: Option<V1Feed<'a>>,
}

impl<'a> Cuts<'a> {
    ghost use Rattle.folders.specs.CutFeeds.{CutsEndAt, CutsStandAt, HasCutRoom, IsCutGiven, IsCutVerdict, TakesCuts};

    /// The cuts of this part of a hybrid's stream; `None`: there are none. For several long pieces
    /// it takes memory, so that they are hashed side by side; if that is refused, it goes without.
    /// Condition: the piece length is above 0.
    pub fn of(alloc: Global, v1: Option<&V1<'a>>, piece_length: u64) -> Cuts<'a>
        requires { 0 < piece_length }
        ensures begins { is_some result.feed ≡ is_some v1.entry }
        ensures stands { CutsStandAt result.feed 0 }
        ensures ends { IfSome v1.entry (λ v. CutsEndAt result.feed v.now.total) }
        ensures given { IfSome v1.entry (λ v.
            IsCutGiven result.feed v.now.pieces.now piece_length []) }
    {
        Cuts {
            feed: v1.map(|v| V1Feed::with_room(alloc, v, piece_length)),
        }
    }

    /// Takes these bytes, no more than are still to come.
    pub(crate) fn push(&mut self, bytes: &[u8])
        requires { HasCutRoom self.old.feed (length bytes.now) }
        ensures { TakesCuts self.old.feed bytes.now self.new.feed }
    {
        if let Some(feed) = &mut self.feed {
            feed.push(bytes);
        }
    }

    /// Takes zeros up to the last piece's end, and returns the first piece that is not the listed
    /// one. Then there are none.
    pub(crate) fn finish(&mut self) -> Option<u64>
        ensures { IsCutVerdict self.old.feed result }
    {
        match replace(&mut self.feed, None) {
            Some(feed) => finish(feed),
            None => None,
        }
    }
}

// Goes on with zeros to the end, and returns what was found.
fn finish(mut feed: V1Feed<'_>) -> Option<u64>
    ensures { IsFeedVerdict feed.entry result }
{
    feed.zeros(feed.total() - feed.given());
    feed.finish()
}

/// The check of a row, and the bitmap of its pieces.
#[derive(Drop)]
pub struct RowFeed<'t> {
    /// The check.
    pub check: PieceCheck<'t>,
    /// A bit for each piece that is whole and good; none if it is not wanted.
    pub bits: Vec<u8>,
    /// The version 1 pieces.
    pub cuts: Cuts<'t>,
}

/// What was found of a row.
#[derive(Clone, Copy)]
pub struct RowFound {
    /// The root of the tree over the row alone.
    pub root: Hash,
    /// The first place of the row whose node is not its hash.
    pub other: Option<u64>,
    /// The first place of the row whose version 1 piece is not the listed one.
    pub bad_cut: Option<u64>,
}

impl<'t> Consumer for RowFeed<'t> {
    ghost use Rattle.folders.specs.RowFeeds.{FeedsBits, HasRowRoom};
    ghost use Rattle.folders.specs.RowFeedLaws.{fed_nothing, fed_twice, fed_room, fed_less};

    ghost has_room = { HasRowRoom };

    ghost took = { FeedsBits };

    fn take(&mut self, part: &[u8]) {
        self.check.push_marking(part, &mut self.bits);
        self.cuts.push(part);
    }

    ghost none = { fed_nothing };

    ghost joins = { fed_twice };

    ghost room_left = { fed_room };

    ghost room_for_less = { fed_less };
}

impl<'t> RowFeed<'t> {
    ghost use Rattle.folders.specs.RowFeeds.{IsFreshFeed, JudgesRow};

    /// Reads and judges the row, of this many bytes at this layer. `None`: the source has fewer;
    /// the bits then tell which pieces it has whole and good. No byte behind the row is read.
    /// Conditions: nothing was given yet, no bit is set, and the buffer is not empty.
    pub fn judge<F: Source>(
        &mut self,
        source: &mut F,
        size: u64,
        layer: u32,
        buffer: &mut [u8],
    ) -> Result<Option<RowFound>, DeviceFault>
        requires some { 0 < length buffer.old }
        requires fresh { IsFreshFeed self.old }
        requires size { size ≡ chosen_shape self.old.check }
        requires layer { layer ≡ chosen_layer self.old.check }
        ensures judged { IfOk result (JudgesRow self.old (F.seen source.old) (F.seen source.new)
            self.new.bits.items) }
        ensures room { vec_capacity self.new.bits ≡ vec_capacity self.old.bits }
        ensures length { length self.new.bits.items ≡ length self.old.bits.items }
        ensures no_further { IsReadWithin size (F.seen source.old) (F.seen source.new) }
        ensures blamed { OnErr result ((F.seen source.old).limit
            < (F.seen source.new).limit + size) }
        ensures counts { CountsFault (F.seen source.old).faults (F.seen source.new).faults result }
    {
        if take_exactly(source, size, buffer, self)? {
            let (root, other) = end_row(&mut self.check, &mut self.bits);
            let bad_cut = self.cuts.finish();
            return Ok(Some(RowFound {
                root,
                other,
                bad_cut,
            }));
        }
        end_early(&mut self.check, &mut self.bits, layer);
        Ok(None)
    }
}

// Ends the check of a row: its root, and the first place whose node is not its hash.
fn end_row(check: &mut PieceCheck<'_>, bits: &mut Vec<u8>) -> (Hash, Option<u64>)
    requires some { 0 < check_byte_count check.old }
    requires within { check_byte_count check.old ≤ chosen_shape check.old }
    ensures ended { EndsRow check.old bits.old.items result.0 result.1 bits.new.items }
    ensures room { vec_capacity bits.new ≡ vec_capacity bits.old }
{
    let (_, root, other) = check.finish_marking(bits);
    (root, other)
}

// Ends the check of a row of which fewer bytes came: a last piece that is cut stays unmarked.
fn end_early(check: &mut PieceCheck<'_>, bits: &mut Vec<u8>, layer: u32)
    requires within { check_byte_count check.old ≤ chosen_shape check.old }
    requires layer { layer ≡ chosen_layer check.old }
    ensures ended { EndsEarly check.old bits.old.items bits.new.items }
    ensures room { vec_capacity bits.new ≡ vec_capacity bits.old }
{
    if ends_with_piece(check.len(), layer) {
        let _found = end_row(check, bits);
    }
}
