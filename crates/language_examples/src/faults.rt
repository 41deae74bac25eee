//! Texts with their first faults.
ghost use Rattle.language_examples.specs.Faults.{FaultsOfWords, FaultsOfNumbers, FaultsOfNames, FaultsOfShapes};
ghost use Rattle.language_examples.specs.Faults.{FirstFaults, FaultsAtTheEnd};

/// Each kind of fault, in texts with one fault.
pub fn each_kind_of_fault()
    ensures words { FaultsOfWords }
    ensures numbers { FaultsOfNumbers }
    ensures names { FaultsOfNames }
    ensures shapes { FaultsOfShapes }
    ensures ends { FaultsAtTheEnd }
{}

/// The first fault, in texts with several.
pub fn first_of_several_faults()
    ensures { FirstFaults }
{}
