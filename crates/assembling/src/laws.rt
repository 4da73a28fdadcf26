//! What holds of what is assembled. A function that calls one of these knows its law.
ghost use Rattle.assembling.specs.AllTexts.{AllTextsAssemble};
ghost use Rattle.assembling.specs.Apart.{AllTextsAssembleApart};

/// Of the texts of all parts of one folder, as `hash_part` gives them, `assemble` makes in any
/// order the draft that is gathered of the folder, or its refusal, unless memory is refused.
pub fn all_texts_assemble()
    ensures { AllTextsAssemble }
{}

/// The same if each part was hashed on a machine with files of its own: the files are put together
/// of the pieces that the parts read.
pub fn all_texts_assemble_apart()
    ensures { AllTextsAssembleApart }
{}
