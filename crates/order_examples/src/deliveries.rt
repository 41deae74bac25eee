//! Accesses that are touched after their calls.
ghost use Rattle.order_examples.specs.Deliveries.{FindsTheLoadBeforeTheTouch, FindsTheLoadAfterTheTouch};
ghost use Rattle.order_examples.specs.Deliveries.{FindsNoneWhereRanksWait};

/// A load after a put in one epoch is a forbidden pair with it, whether the put is touched before the load or after
/// it. In a run that stands there is no finding of one access (MPI 3.1, section 11.7).
pub fn findings_of_late_touches()
    ensures touched_late { FindsTheLoadBeforeTheTouch }
    ensures touched_at_once { FindsTheLoadAfterTheTouch }
    ensures standing { FindsNoneWhereRanksWait }
{}
