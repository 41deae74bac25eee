//! Accesses that are touched after their calls.
ghost use Rattle.run_examples.specs.Deliveries.{LoadsBeforeThePut, LoadsAfterThePut, DeliversWhatAWaitingRankPut};
ghost use Rattle.run_examples.specs.Deliveries.{CompletesByUnlocksAndFlushes, CompletesRequestedGets};
ghost use Rattle.run_examples.specs.Deliveries.{LeavesTheRequestedPut, CompletesByComplete, LeavesThePutToAnother};
ghost use Rattle.run_examples.specs.Deliveries.{GivesWayToTheFirstSum, GivesWayThroughAnother, CompletesByFlushes};
ghost use Rattle.run_examples.specs.Deliveries.{DrawsByTheGenerator, DrawsForEachRank, DeliversAtAnOddDraw};
ghost use Rattle.run_examples.specs.Deliveries.{WaitsAtAnEvenDraw, DeliversTheFirst, DeliversTheSecond};

/// A put that is touched late is not seen by a load of its own rank, and is there in the end, also where its rank waits
/// for ever (MPI 3.1, sections 11.5.4 and 11.7).
pub fn late_touches()
    ensures late { LoadsBeforeThePut }
    ensures at_once { LoadsAfterThePut }
    ensures in_the_end { DeliversWhatAWaitingRankPut }
{}

/// A call that completes accesses has them touched before its first item, and no other pending ones, where each access
/// is touched when a call must have it (MPI 3.1, sections 11.3.5, 11.5.2 to 11.5.4 and 11.7).
pub fn touches_of_completed_accesses()
    ensures locks_and_flush { CompletesByUnlocksAndFlushes }
    ensures requested_gets { CompletesRequestedGets }
    ensures requested_put { LeavesTheRequestedPut }
    ensures started_put { CompletesByComplete }
    ensures flush_of_another { LeavesThePutToAnother }
{}

/// A call has the accesses touched that it completes, a fetching one after an earlier accumulate of its cell. Draws
/// choose among the others (MPI 3.1, sections 11.5.4 and 11.7).
pub fn touches_that_are_due()
    ensures gives_way { GivesWayToTheFirstSum }
    ensures gives_way_twice { GivesWayThroughAnother }
    ensures flushes { CompletesByFlushes }
    ensures draws { DrawsByTheGenerator }
    ensures draws_of_ranks { DrawsForEachRank }
    ensures odd_draw { DeliversAtAnOddDraw }
    ensures even_draw { WaitsAtAnEvenDraw }
    ensures first_drawn { DeliversTheFirst }
    ensures second_drawn { DeliversTheSecond }
{}
