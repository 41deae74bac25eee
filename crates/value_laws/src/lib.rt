//! What gets and loads read in the runs that are made, whoever ran the ranks: where a run has no findings, they read
//! what the updates that are ordered before them leave. As theorems over the definitions.
#![tactic(auto)]

ghost use Rattle.value_laws.specs.ValueLaws.{AssembledReadsAreOrdered, StepReadsAreOrdered, StepRunAgrees};

use agreement_laws::assembled_runs_agree;
use assembled_laws::assembled_runs_are_lawful;
use read_laws::reads_are_ordered;
use step_histories::step_run_is_assembled;

/// In a run that is assembled from histories, on one thread or many, and has no findings, each get and each load
/// reads what the updates that are ordered before it leave (MPI 3.1, section 11.7, in this project's profile).
///
/// It is a theorem, and does nothing when it is called.
pub fn assembled_reads_are_ordered()
    ensures reads { AssembledReadsAreOrdered }
{
    assembled_runs_are_lawful();
    assembled_runs_agree();
    reads_are_ordered();
}

/// The touches of the run on one thread keep its order, and where it has no findings, each get and each load reads
/// what the updates that are ordered before it leave (MPI 3.1, section 11.7, in this project's profile).
///
/// It is a theorem, and does nothing when it is called.
pub fn step_reads_are_ordered()
    ensures agree { StepRunAgrees }
    ensures reads { StepReadsAreOrdered }
{
    step_run_is_assembled();
    assembled_runs_agree();
    reads_are_ordered();
}
