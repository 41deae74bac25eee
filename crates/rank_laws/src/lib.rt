//! Laws of a run that is put together from a history of each rank and one of each cell (MPI 3.1, sections 11.5 and
//! 11.7, in this project's profile), whoever ran the ranks: one thread or many.
#![tactic(auto)]

ghost use Rattle.rank_laws.specs.Lawful.{AssembledRunsEndAlike, AssembledRunsFollowLookUps};
ghost use Rattle.rank_laws.specs.Lawful.{AssembledRunsHaveLawfulBoards, AssembledRunsHaveLawfulCells};
ghost use Rattle.rank_laws.specs.Lawful.{AssembledRunsTouchLawfully, UndelayedRunsTouchDirectly};

/// An assembled run keeps these parts of the law, for each script and delay: its entries are allowed in their order and
/// its looks saw what they say, each cell has one history, and in each log accesses are touched whole, in issue order,
/// and before what waits for them (MPI 3.1, sections 11.5 and 11.7, in this project's profile). The crate `call_laws`
/// has the items of the calls, and `assembled_laws` the whole law.
///
/// It is a theorem, and does nothing when it is called.
pub fn assembled_runs_are_lawful_by_parts()
    ensures boards { AssembledRunsHaveLawfulBoards }
    ensures cells { AssembledRunsHaveLawfulCells }
    ensures ends { AssembledRunsEndAlike }
    ensures look_ups { AssembledRunsFollowLookUps }
    ensures touches { AssembledRunsTouchLawfully }
    ensures undelayed { UndelayedRunsTouchDirectly }
{}
