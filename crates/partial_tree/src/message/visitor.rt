//! What is done with each claim of evidence.

ghost use Rattle.std.specs.Prelude.{OnSome, IfNone};
ghost use Rattle.partial_tree.specs.declared.message.found.Claim.{Claim as Claimed};

use crate::message::found::Claim;

/// Is handed each claim of evidence, as soon as its hash is known.
pub(crate) trait Visitor {
    // The claim may be handed to it.
    ghost admits: { Self → Claimed → Type 0 };

    // What a visit after which it goes on makes of it.
    ghost visits: { Self → Claimed → Self → Type 0 };

    // The claim ends the visits.
    ghost stops: { Self → Claimed → Type 0 };

    /// Takes a claim. `None` ends the visits.
    fn visit(&mut self, claim: Claim) -> Option<()>
        requires { admits self.old claim }
        ensures visits { OnSome result (visits self.old claim self.new) }
        ensures stops { IfNone result (stops self.old claim) };

    /// What may be handed to it still may after a visit.
    ghost admits_after: { (v w : Self) (c d : Claimed) → visits v c w → admits v d → admits w d };

    /// What ends the visits after one would have ended them before.
    ghost stops_before: { (v w : Self) (c d : Claimed) → visits v c w → stops w d → stops v d };
}
