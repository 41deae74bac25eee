//! Runs with locks.
ghost use Rattle.run_examples.specs.Locks.{ReportsTwoPuts, PutsAfterAFlush, ReportsTheGetOfAPut, GetsBeforeThePut};
ghost use Rattle.run_examples.specs.Locks.{AddsBothSums, ReportsOtherOperations, ReportsOtherDatatypes};
ghost use Rattle.run_examples.specs.Locks.{ReadsBesideASum};
ghost use Rattle.run_examples.specs.Locks.{ReportsTheLoad, LoadsAfterASync, ReportsTheStore};

/// Two accesses to one place in one epoch are made in the order of their calls, with a flush between them and without
/// (MPI 3.1, sections 11.5.3, 11.5.4 and 11.7).
pub fn accesses_in_a_lock()
    ensures no_flush { ReportsTwoPuts }
    ensures flush_between { PutsAfterAFlush }
    ensures local_flush_of_a_put { ReportsTheGetOfAPut }
    ensures local_flush_of_a_get { GetsBeforeThePut }
{}

/// Accumulates of two ranks under shared locks are each made once, each on its datatype and by its operation
/// (MPI 3.1, sections 11.3.4, 11.5.3 and 11.7.1).
pub fn accumulates_of_two_ranks()
    ensures sums { AddsBothSums }
    ensures operations { ReportsOtherOperations }
    ensures datatypes { ReportsOtherDatatypes }
    ensures read { ReadsBesideASum }
{}

/// What was put and flushed is loaded by its owner after a barrier, with a sync and without. A store beside a put
/// leaves both (MPI 3.1, sections 11.4, 11.5.4 and 11.7).
pub fn loads_and_stores()
    ensures load_without_sync { ReportsTheLoad }
    ensures load_after_sync { LoadsAfterASync }
    ensures store_beside_a_put { ReportsTheStore }
{}
