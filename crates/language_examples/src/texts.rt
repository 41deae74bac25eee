//! Texts that are read.
ghost use Rattle.language_examples.specs.Texts.{NoCallsAreSaid, OnePutIsSaid, EachCallIsSaid, SpacesAreSaid};
ghost use Rattle.language_examples.specs.Texts.{BlanksAreSkipped, NumbersAreSpelled, BlocksAndRepeatsAreSaid};
ghost use Rattle.language_examples.specs.Texts.{AssertionsAreSaid};

/// Canonical texts, which are read again as their scripts: a script without calls, one with two ranks, one with every
/// form of a call's line, one with spaces.
pub fn canonical_texts()
    ensures no_calls { NoCallsAreSaid }
    ensures one_put { OnePutIsSaid }
    ensures each_call { EachCallIsSaid }
    ensures spaces { SpacesAreSaid }
{}

/// Other texts of the same scripts.
pub fn other_texts()
    ensures blanks { BlanksAreSkipped }
    ensures numbers { NumbersAreSpelled }
    ensures blocks { BlocksAndRepeatsAreSaid }
    ensures assertions { AssertionsAreSaid }
{}
