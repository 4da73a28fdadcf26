//! The laws of canonical bencoding (BEP 3). A function that calls one of these knows its law.
ghost use Rattle.benc.specs.Laws.{CanonicalHasSpelling, SpellingIsOfCanonical, NoSpellingBeginsAnother, SpellsOrFails, SpellingHasNoFault, FaultIsOne};

/// Each canonical value has a spelling.
pub fn canonical_has_spelling()
    ensures { CanonicalHasSpelling }
{}

/// A canonical value has no other spelling, and what has a spelling is canonical.
pub fn spelling_is_of_canonical()
    ensures { SpellingIsOfCanonical }
{}

/// Each spelling is of one value, and none is a proper prefix of another.
pub fn no_spelling_begins_another()
    ensures { NoSpellingBeginsAnother }
{}

/// Each input spells a value, or has a fault.
pub fn spells_or_fails()
    ensures { SpellsOrFails }
{}

/// What spells a value has no fault.
pub fn spelling_has_no_fault()
    ensures { SpellingHasNoFault }
{}

/// No input has two faults.
pub fn fault_is_one()
    ensures { FaultIsOne }
{}
