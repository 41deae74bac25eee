//! That the touches of assembled runs keep the order of the run, as a theorem over the definitions.
#![tactic(auto)]

ghost use Rattle.agreement_laws.specs.AgreementLaws.{AssembledRunsAgree};

/// In an assembled run, whatever its schedule and delay, of two touches on one cell, one before the other in the
/// order of the run, an update's place is passed, and a read's not fallen below (MPI 3.1, section 11.7, in this
/// project's profile).
///
/// It is a theorem, and does nothing when it is called.
pub fn assembled_runs_agree()
    ensures { AssembledRunsAgree }
{}
