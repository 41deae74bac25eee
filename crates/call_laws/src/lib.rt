//! That the log of each rank of an assembled run has the items of its calls, in their order (MPI 3.1, section 11.5, in
//! this project's profile).
#![tactic(auto)]

ghost use Rattle.call_laws.specs.Calls.{AssembledRunsHaveItemsOfCalls};

/// In an assembled run each log has, without its touches, the items of the rank's calls in their order, up to its end
/// or to the call at which it stands (MPI 3.1, section 11.5, in this project's profile).
///
/// It is a theorem, and does nothing when it is called.
pub fn assembled_runs_have_items_of_calls()
    ensures calls { AssembledRunsHaveItemsOfCalls }
{}
