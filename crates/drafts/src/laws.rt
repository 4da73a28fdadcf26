//! What holds of each draft. A function that calls one of these knows its law.

ghost use Rattle.drafts.specs.DraftLaws.{DraftDescribes};
ghost use Rattle.drafts.specs.Outline.{IsOutline};

use crate::draft::Draft;
use benc::laws::canonical_has_spelling;

/// The text that is stated for a draft describes the draft's torrent.
pub fn draft_describes()
    ensures { DraftDescribes }
{
    canonical_has_spelling();
}

/// What a draft holds meets the rules of a torrent at any time.
pub fn draft_is_outline(draft: &Draft)
    ensures { IsOutline draft.now }
{
    let _draft = &draft.alloc;
}
