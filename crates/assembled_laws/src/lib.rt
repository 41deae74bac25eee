//! That a run which is put together from a history of each rank and one of each cell is lawful (MPI 3.1, sections 11.5
//! and 11.7, in this project's profile), whoever ran the ranks: one thread or many.
#![tactic(auto)]

ghost use Rattle.rank_laws.specs.Lawful.{AssembledRunsAreLawful};

/// An assembled run is lawful, for each script and each delay (MPI 3.1, sections 11.5 and 11.7, in this project's
/// profile): each cell has one history, the entries are allowed in their order, and each log has the items of its
/// calls, with the touches where the delay has them.
///
/// It is a theorem, and does nothing when it is called.
pub fn assembled_runs_are_lawful()
    ensures lawful { AssembledRunsAreLawful }
{}
