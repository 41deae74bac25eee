//! Which steps of calls stand for the done points of an access, as theorems over the definitions.
#![tactic(auto)]

ghost use Rattle.first_point_laws.specs.PointLaws.{ArrivalsStandForLeaves, CompletesLeadToWaits, FirstWaitsAreLedTo};

/// The arrival at a fence stands for the leavings to which it leads: whatever item other than a touch comes after the
/// one comes after one of the others (MPI 3.1, sections 11.5.1 and 11.7, in this project's profile).
///
/// It is a theorem, and does nothing when it is called.
pub fn arrivals_stand_for_leaves()
    ensures stand { ArrivalsStandForLeaves }
{}

/// The complete of a start epoch leads at each target to the first wait of that target, on the window, which it is
/// before (MPI 3.1, sections 11.5.2 and 11.7, in this project's profile).
///
/// It is a theorem, and does nothing when it is called.
pub fn completes_lead_to_first_waits()
    ensures waits { CompletesLeadToWaits }
    ensures first { FirstWaitsAreLedTo }
{}
