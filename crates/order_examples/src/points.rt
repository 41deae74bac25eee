//! The points of accesses.
ghost use Rattle.order_examples.specs.Points.{IsDoneInLaterEpochs, IsTakenIn, IsGivenOut, IsVisibleWhereDone};
ghost use Rattle.order_examples.specs.Points.{IsDoneAtWaitAndComplete, IsDoneAtWait, IsDoneAtLocalFlush};
ghost use Rattle.order_examples.specs.Points.{IsNotDoneAtLocalFlush, IsDoneAtItsRequest};

/// An RMA access is done at flushes and unlocks after it, in later epochs too. A read is done at its complete, at local
/// flushes and at the end of its request beside, and no update is (MPI 3.1, sections 11.3.5, 11.5 and 11.7).
pub fn done_points_of_each_kind()
    ensures later_epochs { IsDoneInLaterEpochs }
    ensures complete_of_a_get { IsDoneAtWaitAndComplete }
    ensures complete_of_a_put { IsDoneAtWait }
    ensures local_flush_of_a_get { IsDoneAtLocalFlush }
    ensures local_flush_of_a_put { IsNotDoneAtLocalFlush }
    ensures request { IsDoneAtItsRequest }
{}

/// An update is visible at synchronisations of the owner of the memory: a put at those that take in, once it is done,
/// and a store at those that give out. In the unified model it is visible where it is done (MPI 3.1, sections 11.4 and
/// 11.5.4).
pub fn visible_points_of_each_kind()
    ensures put { IsTakenIn }
    ensures store { IsGivenOut }
    ensures unified { IsVisibleWhereDone }
{}
