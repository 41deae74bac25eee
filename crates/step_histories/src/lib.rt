//! That the run on one thread is put together from a history of each rank and one of each cell, as theorems over the
//! definitions.
#![tactic(auto)]

ghost use Rattle.step_histories.specs.Assembled.{StepRunIsAssembled, StepRunIsLawful};

use assembled_laws::assembled_runs_are_lawful;

/// The run on one thread has a history of each rank among the entries of all, and one of each cell among the touches of
/// all, for each well-formed script, order of the ranks, delay and seed (MPI 3.1, sections 11.5 and 11.7, in this
/// project's profile). So it is lawful.
///
/// It is a theorem, and does nothing when it is called.
pub fn step_run_is_assembled()
    ensures assembled { StepRunIsAssembled }
    ensures lawful { StepRunIsLawful }
{
    assembled_runs_are_lawful();
}
