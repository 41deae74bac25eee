//! Runs with locks.
ghost use Rattle.order_examples.specs.Locks.{FindsTwoPuts, FindsNoneAfterAFlush, FindsTheGetOfAPut};
ghost use Rattle.order_examples.specs.Locks.{FindsNoneAfterTheGet};
ghost use Rattle.order_examples.specs.Locks.{FindsNoneOfSums, FindsOtherOperations, FindsOtherDatatypes};
ghost use Rattle.order_examples.specs.Locks.{FindsNoneOfAReadBesideASum, FindsTheLoad, FindsNoneAfterASync};
ghost use Rattle.order_examples.specs.Locks.{FindsTheStore};
ghost use Rattle.order_examples.specs.Locks.{FindsNoStoreWhereUnified, FindsNoneAfterASharedUnlock};
ghost use Rattle.order_examples.specs.Locks.{FindsPutsUnderSharedLocks, IsDoneByFlushAndUnlock, IsVisibleAtTheSync};
ghost use Rattle.order_examples.specs.Locks.{ReachesTheLeaveOfABarrier};

/// Two accesses of one rank to one place in one epoch are a forbidden pair, unless the first is done before the
/// second: a put by a flush, and a get by a local flush too (MPI 3.1, sections 11.5.3, 11.5.4 and 11.7).
pub fn findings_in_a_lock()
    ensures no_flush { FindsTwoPuts }
    ensures flush_between { FindsNoneAfterAFlush }
    ensures local_flush_of_a_put { FindsTheGetOfAPut }
    ensures local_flush_of_a_get { FindsNoneAfterTheGet }
{}

/// Accumulates of two ranks under shared locks may overlap where they have one datatype, and one operation or a no_op
/// (MPI 3.1, sections 11.3.4 and 11.7).
pub fn findings_of_accumulates()
    ensures sums { FindsNoneOfSums }
    ensures operations { FindsOtherOperations }
    ensures datatypes { FindsOtherDatatypes }
    ensures read { FindsNoneOfAReadBesideASum }
{}

/// A put that is done before a load is visible to the load by a sync alone. A store beside a put is forbidden in the
/// separate model, also where they do not overlap (MPI 3.1, sections 11.4, 11.5.4 and 11.7).
pub fn findings_of_loads_and_stores()
    ensures load_without_sync { FindsTheLoad }
    ensures load_after_sync { FindsNoneAfterASync }
    ensures store_beside_a_put { FindsTheStore }
    ensures store_where_unified { FindsNoStoreWhereUnified }
{}

/// An unlock of a shared lock orders what was done under it before a later exclusive lock, and before no shared one
/// (MPI 3.1, sections 11.5.3 and 11.7).
pub fn findings_of_two_locks()
    ensures exclusive { FindsNoneAfterASharedUnlock }
    ensures shared { FindsPutsUnderSharedLocks }
{}

/// A put in a lock_all epoch is done at its flush and at the unlock_all, and visible to its owner at the sync that the
/// barrier orders after the flush (MPI 3.1, sections 11.5.4 and 11.7).
pub fn points_of_a_flushed_put()
    ensures done { IsDoneByFlushAndUnlock }
    ensures visible { IsVisibleAtTheSync }
    ensures before { ReachesTheLeaveOfABarrier }
{}
