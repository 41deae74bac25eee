//! Worked lists of words.
ghost use Rattle.command_words.specs.WorkedWords.{AreAccepted, AreRefused};

/// What some lists of words stand for, computed by the definition.
///
/// It is a theorem, and does nothing when it is called.
#[tactic(auto, using(crate::proofs::WorkedWords::accepted, crate::proofs::WorkedWords::refused))]
pub fn worked_words()
    ensures accepted { AreAccepted }
    ensures refused { AreRefused }
{}
