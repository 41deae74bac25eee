//! Laws of the order of a run, of its vector clocks and of its findings, as theorems over the definitions.
//!
//! Each function does nothing: its clauses are the theorems, whose statements stand in `specs/`.
#![tactic(auto)]

ghost use Rattle.order_laws.specs.ClockLaws.{ClocksDecide, StampsKeepLaws};
ghost use Rattle.order_laws.specs.FindingLaws.{FindingsAreOneList, AccessesAscend, ReadsAreNoPair, PartnersAreLeast};
ghost use Rattle.order_laws.specs.FindingLaws.{EachPairIsFound};
ghost use Rattle.order_laws.specs.OrderLaws.{IsTransitive, AgreesWithLogs, EdgesAscend, DelaysAreDrawn};

/// The order of a run is transitive. In a lawful run it agrees with the order of each log, and each edge leads to an
/// entry of a greater place (MPI 3.1, section 11.7, in this project's profile). What is lawful with any delay is
/// lawful where accesses may be touched at drawn moments.
pub fn order_of_a_run()
    ensures transitive { IsTransitive }
    ensures logs { AgreesWithLogs }
    ensures ascending { EdgesAscend }
    ensures drawn { DelaysAreDrawn }
{}

/// Clocks of the entries of a lawful run decide its order, where each counts its own entry, counts what the entries
/// count that directly precede it, and counts nothing else. Those that the definition computes do so.
pub fn clocks_of_a_run()
    ensures decide { ClocksDecide }
    ensures keep { StampsKeepLaws }
{}

/// A lawful run has one list of findings. Accesses are judged in the order of their names, each finding has the least
/// partner, and each access that forms a forbidden pair with one of a smaller name has a finding. Two accesses of which
/// neither is an update are no forbidden pair (MPI 3.1, section 11.7, in this project's profile).
pub fn findings_of_a_run()
    ensures one_list { FindingsAreOneList }
    ensures ascending { AccessesAscend }
    ensures reads { ReadsAreNoPair }
    ensures least { PartnersAreLeast }
    ensures complete { EachPairIsFound }
{}
