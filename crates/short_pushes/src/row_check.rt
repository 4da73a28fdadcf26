//! Pieces of a file in a row, checked against their hashes from bytes that come in parts of any
//! size.

ghost use Rattle.std.specs.Prelude.{◌≡◌, ◌+◌, ◌-◌, ◌<◌, ◌≤◌, ◌⊎◌, [], IfOk, List, ℕ, length};
ghost use Rattle.hashtree.specs.Complete.{complete_count};
ghost use Rattle.hashtree.specs.Judging.{IsJudgedRow};
ghost use Rattle.hashtree.specs.PieceCheck as pieces;
ghost use Rattle.hashtree.specs.Tree.{block_count, first_pad, root_of};
ghost use Rattle.short_pushes.specs.Held.{held};

use crate::groups::whole_groups;
use crate::waiting::Waiting;
use hashtree::{BLOCK_LENGTH, Hash, NoMemory, PieceCheck, Shape};
use std::alloc::Global;
use std::mem::replace;

/// The check of a file's pieces in a row, as [`PieceCheck::of_row`] makes it. The bytes of short
/// pushes wait until eight blocks of them can be hashed side by side, or where bits are marked
/// until they complete a piece; longer pushes are not copied, unless bytes wait. The room, 131,072
/// bytes, is taken by [`RowCheck::new`]. A bitmap that the caller lends has to be clear at first
/// and the same at each call: a bit that is set stays set, whatever its piece is.
#[derive(Drop)]
pub struct RowCheck<'a> {
    check: PieceCheck<'a>,
    waiting: Waiting,
    shape: Shape,
    layer: u32,
    hashes: &'a [Hash],
    ghost low: { layer ≤ 32 },
    ghost whole: { length hashes.now ≡ first_pad (block_count shape) layer },
    ghost shape_is: { pieces.chosen_shape check ≡ shape },
    ghost layer_is: { pieces.chosen_layer check ≡ layer },
    ghost hashes_are: { pieces.given_hashes check ≡ hashes.now },
    ghost given: { pieces.check_byte_count check + length (held waiting) ≤ shape },
}

impl<'a> RowCheck<'a> {
    ghost use Rattle.hashtree.specs.Parts.{TakesFront};
    ghost use Rattle.short_pushes.specs.RowChecks.{BeginsPushes, BeginsPushesAnew, IsEndedRow, IsGivenRow, IsRowSettled, PushesRow, TakesPush, hashes_of_row, layer_of_row, row_byte_count, shape_of_row};

    /// A check that was given nothing yet, of some of a file's pieces in a row, which have as many
    /// bytes as a file of this shape. It fails if memory is refused. Conditions: the layer is at
    /// most 32, and there is a hash for each piece.
    pub fn new(
        alloc: Global,
        shape: Shape,
        layer: u32,
        hashes: &'a [Hash],
    ) -> Result<RowCheck<'a>, NoMemory>
        requires low { layer ≤ 32 }
        requires whole { length hashes.now ≡ first_pad (block_count shape) layer }
        ensures { IfOk result (BeginsPushes shape layer hashes.entry.now) }
    {
        let waiting = Waiting::new(alloc)?;
        let check = PieceCheck::of_row(shape, layer, hashes);
        Ok(RowCheck {
            check,
            waiting,
            shape,
            layer,
            hashes,
        })
    }

    /// How many bytes were pushed.
    pub fn len(&self) -> u64
        ensures { result ≡ row_byte_count self.now }
    {
        self.check.len() + self.waiting.len() as u64
    }

    /// How many bytes of the pieces are still to come.
    pub fn left(&self) -> u64
        ensures { result ≡ shape_of_row self.now - row_byte_count self.now }
    {
        self.shape.length() - self.len()
    }

    /// The layer that is checked.
    pub fn layer(&self) -> u32
        ensures value { result ≡ layer_of_row self.now }
        ensures low { result ≤ 32 }
    {
        self.layer
    }

    /// Takes the next bytes, and sets the bit of each piece that is complete and whose node is its
    /// hash, by its place in the row: bit 0 is the highest of the first byte, as in a bitfield (BEP
    /// 3). Bits that the bitmap does not have are left out. Condition: no more bytes come than
    /// [`RowCheck::left`] says.
    pub fn push(&mut self, bytes: &[u8], good: &mut [u8])
        requires { row_byte_count self.old + length bytes.now ≤ shape_of_row self.old }
        ensures { PushesRow self.old good.old bytes.now self.new good.new }
    {
        if good.is_empty() {
            return self.take(bytes, good);
        }
        self.settle(&mut []);
        self.take(bytes, good);
        self.settle(good);
    }

    /// How many bytes were pushed, the root of the tree over them alone, and the first place of the
    /// row whose node is not its hash, if there is one. The last piece is compared and marked too,
    /// with pads after its bytes if it is short; if fewer bytes came than the shape says, it is for
    /// the caller to see that they end with a piece. The check then begins anew. Condition: at
    /// least one byte was pushed.
    pub fn finish(&mut self, good: &mut [u8]) -> (u64, Hash, Option<u64>)
        requires { 0 < row_byte_count self.old }
        ensures found { (bytes : List ℕ) → IsGivenRow self.old good.old bytes
            → (result.0 ≡ length bytes) × (result.1 ≡ root_of bytes)
            × IsJudgedRow (layer_of_row self.old) (hashes_of_row self.old) bytes good.new result.2 }
        ensures anew { BeginsPushesAnew self.old self.new }
        ensures size { length good.new ≡ length good.old }
    {
        self.ended().finish_marking(good)
    }

    /// Forgets what was pushed: the check begins anew.
    pub fn restart(&mut self)
        ensures { BeginsPushesAnew self.old self.new }
    {
        self.waiting.clear();
        self.check = PieceCheck::of_row(self.shape, self.layer, self.hashes);
    }

    // Begins anew, and gives what was pushed so far.
    fn ended(&mut self) -> PieceCheck<'a>
        ensures ended { IsEndedRow self.old result }
        ensures anew { BeginsPushesAnew self.old self.new }
    {
        self.hand_on(&mut []);
        let fresh = PieceCheck::of_row(self.shape, self.layer, self.hashes);
        replace(&mut self.check, fresh)
    }

    // Hands on what waits, if that completes a piece.
    fn settle(&mut self, good: &mut [u8])
        ensures content { TakesPush self.old good.old [] self.new good.new }
        ensures settled { IsRowSettled self.new }
    {
        if complete(self.check.len(), self.layer) != complete(self.len(), self.layer) {
            self.hand_on(good);
        }
    }

    // Takes the next bytes, and marks the pieces that are complete in what does not wait.
    fn take(&mut self, bytes: &[u8], good: &mut [u8])
        requires { row_byte_count self.old + length bytes.now ≤ shape_of_row self.old }
        ensures { TakesPush self.old good.old bytes.now self.new good.new }
    {
        let rest = self.fill(bytes, good);
        if !rest.is_empty() {
            self.pass(rest, good);
        }
    }

    // If bytes wait, lets the first of these wait too, and hands on what fills the room. Returns
    // the others.
    fn fill<'b>(&mut self, bytes: &'b [u8], good: &mut [u8]) -> &'b [u8]
        requires { row_byte_count self.old + length bytes.now ≤ shape_of_row self.old }
        ensures front { TakesFront (λ old part new. TakesPush old good.old part new good.new)
            self.old bytes.now self.new result.now }
        ensures ends { (held self.new.waiting ≡ []) ⊎ (result.now ≡ []) }
    {
        let rest = self.waiting.top_up(bytes);
        if self.waiting.is_full() {
            self.hand_on(good);
        }
        rest
    }

    // Passes on what ends an open block and whole groups after it, and lets the other bytes wait.
    // Condition: no byte waits.
    fn pass(&mut self, bytes: &[u8], good: &mut [u8])
        requires none { held self.old.waiting ≡ [] }
        requires room { row_byte_count self.old + length bytes.now ≤ shape_of_row self.old }
        ensures { TakesPush self.old good.old bytes.now self.new good.new }
    {
        let (front, rest) = whole_groups(bytes, self.check.len());
        self.check.push_marking(front, good);
        self.waiting.keep(rest);
    }

    // Hands the bytes that wait on to the check.
    fn hand_on(&mut self, good: &mut [u8])
        ensures content { TakesPush self.old good.old [] self.new good.new }
        ensures none { held self.new.waiting ≡ [] }
    {
        self.check.push_marking(self.waiting.as_slice(), good);
        self.waiting.clear();
    }
}

// How many nodes of a layer are complete after this many bytes.
fn complete(count: u64, layer: u32) -> u64
    requires { layer ≤ 32 }
    ensures { result ≡ complete_count layer count }
{
    (count.saturating_sub(1) / BLOCK_LENGTH) >> layer
}
