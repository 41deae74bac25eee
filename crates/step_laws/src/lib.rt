//! That the run on one thread is one of the lawful runs, as theorems over the definitions.
#![tactic(auto)]

ghost use Rattle.step_laws.specs.Drained.{RunIsDrained};
ghost use Rattle.step_laws.specs.Ends.{RunEnds};
ghost use Rattle.step_laws.specs.Inside.{AccessesLieInMemory, PiecesLieInCells, WindowNumbersAgree};

/// The run on one thread ends by itself, whatever the order of the ranks and the delay: where its turns are over, no
/// rank may have one.
///
/// It is a theorem, and does nothing when it is called.
pub fn step_run_ends()
    ensures { RunEnds }
{}

/// Where no rank may have a turn any more, the pending accesses are delivered: after that none is left.
///
/// It is a theorem, and does nothing when it is called.
pub fn step_run_delivers_all()
    ensures { RunIsDrained }
{}

/// Each access lies in the memory of its target, and is aligned: a pending one after any number of turns, and one that
/// its rank makes in its next turn (MPI 3.1, sections 11.2 and 11.3). So it is for allocated, created and dynamic
/// windows, and also where a region is detached between the look-up of an access and its Issue.
///
/// It is a theorem, and does nothing when it is called.
pub fn accesses_lie_in_memory()
    ensures accesses { AccessesLieInMemory }
    ensures pieces { PiecesLieInCells }
{}

/// The board and the ranks agree on the numbers of windows: how many of a name each rank has begun to make.
///
/// It is a theorem, and does nothing when it is called.
pub fn window_numbers_agree()
    ensures { WindowNumbersAgree }
{}
