//! What a client asks: which of the blocks that peers sent it may keep.
ghost use Rattle.std.specs.Prelude.{◌≡◌, IfOk, IfSome, IfNone, List, ℕ};
ghost use Rattle.chains.specs.Chain.{Chain};
ghost use Rattle.partial_tree.specs.Trust.{HasNoCollision};
ghost use Rattle.session.specs.Session.{IsBlock};
ghost use Rattle.session.specs.Trusted.{IsTrustedStep};
ghost use Rattle.session_laws.specs.Inputs.{IsInUse};

use session::{NoMemory, NodeMap, Session, Verdict};
use session_laws::trusting_the_inputs_in_use;
use wire::Message;

/// Where a block that a peer sent belongs, if it may be kept: its file's number and the block's
/// there. It is that block of every file with the stated length and root, or two inputs with one
/// SHA-256 digest are named. Otherwise the session is as before.
pub fn keep_block<N: NodeMap>(
    session: &mut Session<'_, N>,
    index: u32,
    begin: u32,
    block: &[u8],
) -> Option<(usize, u64)>
    ensures is_the_block { IfSome result (λ p.
        IsBlock session.old index begin block.now p.0 p.1) }
    ensures unchanged { IfNone result (session.new ≡ session.old) }
{
    session.take_block(index, begin, block).ok()
}

/// Takes messages of strangers, and returns what became of each. To whoever trusts that no two
/// different inputs in use have one SHA-256 digest, no step of the run leaves a collision: what is
/// verified is the block, and true hashes are stored. The inputs in use are a finite list, of the
/// blocks that came, of what is known at the end, and of any one file.
pub fn trusted_run<N: NodeMap>(
    session: &mut Session<'_, N>,
    messages: &[Message<'_>],
) -> Result<Vec<Verdict>, NoMemory>
    ensures safe { IfOk result (λ vs. (file : List ℕ)
        → HasNoCollision (IsInUse messages.now session.new file)
        → Chain (IsTrustedStep (IsInUse messages.now session.new file)) session.old messages.now
        vs.items session.new) }
{
    trusting_the_inputs_in_use();
    session.run(messages)
}
