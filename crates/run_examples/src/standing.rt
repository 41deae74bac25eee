//! Runs in which ranks wait for ever.
ghost use Rattle.run_examples.specs.Standing.{WaitInTwoCollectives, WaitsForTheKeptLock, EndsWithAnOpenLock};
ghost use Rattle.run_examples.specs.Standing.{RefusesTheSecondFlavor, WaitsForTheFlavor, RefusesTheRankDrawnSecond};
ghost use Rattle.run_examples.specs.Standing.{WaitsAsTheRankDrawnFirst};

/// Ranks in two collectives wait for ever, and so does a rank whose lock is excluded by one that is kept. A lock that
/// is not given back hinders no other call (MPI 3.1, sections 11.5.1 and 11.5.3).
pub fn ranks_that_wait()
    ensures barrier_and_fence { WaitInTwoCollectives }
    ensures kept_lock { WaitsForTheKeptLock }
    ensures open_lock { EndsWithAnOpenLock }
{}

/// Of two ranks that create one window with two flavors the second to come is refused, and the first waits until the
/// other creates the window as it did (MPI 3.1, section 11.2).
pub fn flavors_of_one_window()
    ensures robin { RefusesTheSecondFlavor }
    ensures reverse { WaitsForTheFlavor }
    ensures drawn_first { RefusesTheRankDrawnSecond }
    ensures drawn_second { WaitsAsTheRankDrawnFirst }
{}
