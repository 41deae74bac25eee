//! The canonical text of a script says the script, as a theorem over the definitions of the script language.
#![tactic(auto)]

ghost use Rattle.text_laws.specs.TextLaws.{CanonicalTextsAreReadAgain};

/// The canonical text of a script that a text can say is read again as that script, where it is at most 1,048,576 bytes
/// long.
///
/// It is a theorem, and does nothing when it is called.
pub fn canonical_texts_are_read_again()
    ensures { CanonicalTextsAreReadAgain }
{}
