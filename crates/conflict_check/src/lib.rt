//! The pairs of accesses that a rule forbids and no recorded synchronisation orders: after MPI 3.1, section 11.7,
//! in this project's profile.
#![tactic(auto)]

ghost use Rattle.conflict_check.specs.Enough.{AlikePointsAreEnough};

mod conflicts;
mod judged;
mod judgements;
mod listings;
mod partners;
mod run_findings;

pub use judgements::judge;
pub use run_findings::findings;

/// Where some points of each access stand for all, the findings are the same: it is enough that both are before the
/// same of the accesses (MPI 3.1, section 11.7, in this project's profile).
///
/// It is a theorem, and does nothing when it is called.
pub fn points_may_stand_for_others()
    ensures enough { AlikePointsAreEnough }
{}
