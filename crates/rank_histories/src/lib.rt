//! The history of a rank that shares the board and the cells with others: among the entries that it knows, each as the
//! board keeps it, whatever the others do. A run of ranks that each have such a history is assembled from them.
#![tactic(auto)]

ghost use Rattle.rank_histories.specs.Ends.{EndedRunsAreAssembled, EndedRunsAreLawful, EndedRunsAgree};

use agreement_laws::assembled_runs_agree;
use assembled_laws::assembled_runs_are_lawful;

/// A run in which each rank has a history among the same entries, and whose cells were closed with one history each,
/// is assembled, whatever its delay and its seed. So it is lawful, and its touches keep its order (MPI 3.1, sections
/// 11.5 and 11.7, in this project's profile).
///
/// It is a theorem, and does nothing when it is called.
pub fn ended_runs_are_assembled()
    ensures assembled { EndedRunsAreAssembled }
    ensures lawful { EndedRunsAreLawful }
    ensures agree { EndedRunsAgree }
{
    assembled_runs_are_lawful();
    assembled_runs_agree();
}
