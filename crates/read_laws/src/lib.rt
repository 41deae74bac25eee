//! What gets and loads read in a run without findings, and where accesses lie, as theorems over the definitions.
#![tactic(auto)]

ghost use Rattle.read_laws.specs.ReadLaws.{AccessesLieInMemory, ReadsAreOrdered};

/// In a lawful run without findings, whose touches keep its order, each get and each load reads what the updates that
/// are ordered before it leave (MPI 3.1, section 11.7, in this project's profile).
///
/// It is a theorem, and does nothing when it is called.
pub fn reads_are_ordered()
    ensures { ReadsAreOrdered }
{}

/// In a lawful run each access lies in the memory of its target, byte by byte, and is aligned: on allocated, created
/// and dynamic windows (MPI 3.1, sections 11.2 and 11.3, in this project's profile).
///
/// It is a theorem, and does nothing when it is called.
pub fn accesses_lie_in_memory()
    ensures { AccessesLieInMemory }
{}
