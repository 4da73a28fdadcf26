//! How frames are told if the blocks that cannot be proved yet are held.
ghost use Rattle.std.specs.Prelude.{◌≡◌, ◌<◌, ℕ, List, IfSome, IfNone, None, Some, length};
ghost use Rattle.holdings.specs.Holdings.{all_pieces};
ghost use Rattle.opening.specs.Trees.{IsTreeWithRoot};
ghost use Rattle.replays.specs.ByPieces.{SaysHashes, SaysRun, asked_in, by_pieces_as, bytes_in};
ghost use Rattle.replays.specs.Held.{ArePiecesOf, IsFirstWith, IsRunOf};
ghost use Rattle.replays.specs.TellingOf.{TellsFrame};
ghost use Rattle.wire.specs.declared.message.Ask.{Ask as AskSeen};

use crate::entries::{Delivery, delivered, tell_entries};
use crate::naming::first_with;
use crate::report::{FrameReport, Outcome, Reported};
use crate::said::{Said, say};
use crate::settlings::{Touched, tell_settled};
use crate::telling::TellsFrames;
use benc::DeviceFault;
use hashtree::Hash;
use holdings::{Holdings, Pieces};
use lines::{Line, LineSink};
use session::{Blocks, NodeMap, Session, Verdict};
use wire::{Ask, Direction, Frame, Message};

impl TellsFrames for Holdings {
    ghost use Rattle.std.specs.Prelude.{List, refl};
    ghost use Rattle.holdings.specs.Holdings.{HoldingsSeen};
    ghost use Rattle.replays.specs.ByPieces.{by_pieces_as};
    ghost use Rattle.replays.specs.declared.said.Said.{Said as SaidSeen};

    ghost Kept = { HoldingsSeen };

    ghost Told = { List SaidSeen };

    ghost kept = { λ h. h };

    ghost teller = { by_pieces_as };

    fn tell<N: NodeMap, L: LineSink>(
        &mut self,
        session: &mut Session<'_, N>,
        out: &mut L,
        met: Reported<'_>,
        outcome: &mut Outcome,
    ) -> Result<(), DeviceFault> {
        let report = met.report;
        match report {
            FrameReport::Verdict(verdict) => {
                tell_verdict(self, session, out, met, verdict, outcome)
            }
            FrameReport::BadFrame { .. } => {
                say(out, met.number, &Said::Report(*report), outcome)
            }
        }
    }

    fn tell_rest<L: LineSink>(&self, out: &mut L) -> Result<bool, DeviceFault> {
        let held = self.held();
        if held == 0 {
            return Ok(false);
        }
        match lines::say(&Line::StillHeld(held), out) {
            Ok(()) => Ok(true),
            Err(fault) => Err(fault),
        }
    }

    ghost ends = { λ s e. refl };
}

// Tells a message with this verdict.
fn tell_verdict<N: NodeMap, L: LineSink>(
    held: &mut Holdings,
    session: &mut Session<'_, N>,
    out: &mut L,
    met: Reported<'_>,
    verdict: &Verdict,
    outcome: &mut Outcome,
) -> Result<(), DeviceFault>
    ensures { TellsFrame (by_pieces_as L.spelled) met.entry.number met.entry.frame
        (FrameReport.Verdict verdict.now) (session.old, held.old) (session.new, held.new)
        (L.seen out.old) (L.seen out.new) outcome.old outcome.new result }
{
    match verdict {
        Verdict::Blocks(blocks) => tell_blocks(held, session, out, met, blocks, outcome),
        Verdict::Stored(count) => tell_stored(held, session, out, met, *count, outcome),
        _ => {
            let report = FrameReport::Verdict(*verdict);
            say(out, met.number, &Said::Report(report), outcome)
        }
    }
}

// Tells a message of blocks, and holds those that are unproved.
fn tell_blocks<N: NodeMap, L: LineSink>(
    held: &mut Holdings,
    session: &mut Session<'_, N>,
    out: &mut L,
    met: Reported<'_>,
    blocks: &Blocks,
    outcome: &mut Outcome,
) -> Result<(), DeviceFault>
    ensures { TellsFrame (by_pieces_as L.spelled) met.entry.number met.entry.frame
        (FrameReport.Verdict (Verdict.Blocks blocks.now))
        (session.old, held.old) (session.new, held.new) (L.seen out.old)
        (L.seen out.new) outcome.old outcome.new result }
{
    match run_in(session, met.frame, blocks) {
        Some(run) => tell_run(held, session, run, out, met.number, outcome),
        None => {
            let report = FrameReport::Verdict(Verdict::Blocks(*blocks));
            say(out, met.number, &Said::Report(report), outcome)
        }
    }
}

// The blocks of a frame's message, if they are blocks of a tree.
fn run_in<'a, N: NodeMap>(
    session: &Session<'_, N>,
    frame: (Direction, Frame<'a>),
    blocks: &'a Blocks,
) -> Option<Delivery<'a>>
    ensures run { IfSome result (λ c. IsRunOf session.now c.blocks.now c.bytes.now c.tree) }
    ensures blocks { IfSome result (λ c. c.blocks.now ≡ blocks.now) }
    ensures bytes { IfSome result (λ c. bytes_in frame.entry ≡ Some c.bytes.now) }
    ensures none { IfNone result ((bytes : List ℕ) (n : ℕ) → bytes_in frame.entry ≡ Some bytes
        → ¬ IsRunOf session.now blocks.now bytes n) }
{
    match bytes_of(frame) {
        Some(bytes) => delivered(session, blocks, bytes),
        None => None,
    }
}

// The bytes of a message of blocks.
fn bytes_of<'a>(frame: (Direction, Frame<'a>)) -> Option<&'a [u8]>
    ensures some { IfSome result (λ bytes. bytes_in frame.entry ≡ Some bytes.now) }
    ensures none { IfNone result (bytes_in frame.entry ≡ None) }
{
    match frame.1 {
        Frame::Message(Message::Piece { block, .. }) => Some(block),
        _ => None,
    }
}

// Tells a message whose blocks are blocks of a tree: its entries, and then what can be settled of
// their pieces.
fn tell_run<N: NodeMap, L: LineSink>(
    held: &mut Holdings,
    session: &mut Session<'_, N>,
    run: Delivery<'_>,
    out: &mut L,
    number: u64,
    outcome: &mut Outcome,
) -> Result<(), DeviceFault>
    requires { IsRunOf session.old run.blocks.now run.bytes.now run.tree }
    ensures { SaysRun session.old run.entry.blocks.now run.entry.bytes.now held.old session.new
        held.new L.spelled number (L.seen out.old) (L.seen out.new) outcome.old outcome.new result }
{
    match tell_entries(held, session, run, out, number, outcome) {
        Ok(()) => tell_settled(held, session, pieces_of(session, run), out, number, outcome),
        Err(fault) => Err(fault),
    }
}

// The pieces that have one of these blocks.
fn pieces_of<N: NodeMap>(session: &Session<'_, N>, run: Delivery<'_>) -> Touched
    requires { IsRunOf session.now run.blocks.now run.bytes.now run.tree }
    ensures tree { result.tree ≡ run.entry.tree }
    ensures file { result.file ≡ run.entry.blocks.now.file }
    ensures pieces { ArePiecesOf session.now run.entry.blocks.now run.entry.tree result.pieces }
{
    let _few = session.blocks(run.tree);
    let (file, first) = run.blocks.place(0);
    let count = run.blocks.len() as u64;
    Touched {
        tree: run.tree,
        file,
        pieces: Pieces::of_blocks(session, run.tree, first, count),
    }
}

// Tells a message of hashes that were taken, and then what can be settled of the pieces of their
// tree.
fn tell_stored<N: NodeMap, L: LineSink>(
    held: &mut Holdings,
    session: &mut Session<'_, N>,
    out: &mut L,
    met: Reported<'_>,
    count: u64,
    outcome: &mut Outcome,
) -> Result<(), DeviceFault>
    ensures { TellsFrame (by_pieces_as L.spelled) met.entry.number met.entry.frame
        (FrameReport.Verdict (Verdict.Stored count))
        (session.old, held.old) (session.new, held.new) (L.seen out.old)
        (L.seen out.new) outcome.old outcome.new result }
{
    let report = FrameReport::Verdict(Verdict::Stored(count));
    match tree_in(session, met.frame) {
        Some(touched) => {
            let stored = Reported {
                number: met.number,
                frame: met.frame,
                report: &report,
            };
            tell_hashes(held, session, touched, out, stored, outcome)
        }
        None => say(out, met.number, &Said::Report(report), outcome),
    }
}

// Tells this report, and then what can be settled of these pieces.
fn tell_hashes<N: NodeMap, L: LineSink>(
    held: &mut Holdings,
    session: &mut Session<'_, N>,
    touched: Touched,
    out: &mut L,
    met: Reported<'_>,
    outcome: &mut Outcome,
) -> Result<(), DeviceFault>
    requires there { touched.tree < length session.old.torrent.trees }
    requires tree { touched.pieces.tree ≡ touched.tree }
    ensures { SaysHashes met.entry.report.now touched.file session.old held.old touched.pieces
        session.new held.new L.spelled met.entry.number (L.seen out.old) (L.seen out.new)
        outcome.old outcome.new result }
{
    match say(out, met.number, &Said::Report(*met.report), outcome) {
        Ok(()) => tell_settled(held, session, touched, out, met.number, outcome),
        Err(fault) => Err(fault),
    }
}

// All pieces of the tree whose hashes a frame's message has, and the first file that has it.
fn tree_in<N: NodeMap>(session: &Session<'_, N>, frame: (Direction, Frame<'_>)) -> Option<Touched>
    ensures asked { IfSome result (λ t. (ask : AskSeen) × (asked_in frame.entry ≡ Some ask)
        × IsTreeWithRoot session.now.torrent.trees ask.root t.tree) }
    ensures file { IfSome result (λ t. IsFirstWith session.now t.tree t.file) }
    ensures pieces { IfSome result (λ t. t.pieces ≡ all_pieces t.tree) }
    ensures none { IfNone result ((ask : AskSeen) (n : ℕ) → asked_in frame.entry ≡ Some ask
        → ¬ IsTreeWithRoot session.now.torrent.trees ask.root n) }
{
    match asked_of(frame) {
        Some(ask) => pieces_with_root(session, &ask.root),
        None => None,
    }
}

// What a message of hashes was asked for.
fn asked_of(frame: (Direction, Frame<'_>)) -> Option<Ask>
    ensures some { IfSome result (λ ask. asked_in frame.entry ≡ Some ask) }
    ensures none { IfNone result (asked_in frame.entry ≡ None) }
{
    match frame.1 {
        Frame::Message(Message::Hashes { ask, .. }) => Some(ask),
        _ => None,
    }
}

// All pieces of the tree with this root, and the first file that has it.
fn pieces_with_root<N: NodeMap>(session: &Session<'_, N>, root: &Hash) -> Option<Touched>
    ensures tree { IfSome result (λ t. IsTreeWithRoot session.now.torrent.trees root.now t.tree) }
    ensures file { IfSome result (λ t. IsFirstWith session.now t.tree t.file) }
    ensures pieces { IfSome result (λ t. t.pieces ≡ all_pieces t.tree) }
    ensures none { IfNone result ((n : ℕ)
        → ¬ IsTreeWithRoot session.now.torrent.trees root.now n) }
{
    match session.torrent().tree_with_root(root) {
        Some(tree) => Some(Touched {
            tree,
            file: first_with(session, tree),
            pieces: Pieces::of_tree(tree),
        }),
        None => None,
    }
}
