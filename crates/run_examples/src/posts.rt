//! Runs with posts and starts.
ghost use Rattle.run_examples.specs.Posts.{ReportsTheGetBeforeTheWait, RefusesALockOfAPostedRank, LooksAfterThePost};
ghost use Rattle.run_examples.specs.Posts.{RefusesAPostOfALockedRank, TestsInRobin, TestsInReverse, TestsInGreedy};
ghost use Rattle.run_examples.specs.Posts.{TestsInSeeded};

/// A put of one origin of a post is fetched by a later get of another one. A posted rank is not locked, and a locked
/// rank does not post (MPI 3.1, sections 11.5.2, 11.5.3 and 11.7).
pub fn posts_and_locks()
    ensures wait_of_the_target { ReportsTheGetBeforeTheWait }
    ensures lock_of_a_posted_rank { RefusesALockOfAPostedRank }
    ensures look_of_the_refusal { LooksAfterThePost }
    ensures post_of_a_locked_rank { RefusesAPostOfALockedRank }
{}

/// A testwin is false before the complete and true after it, in each order of the ranks (MPI 3.1, section 11.5.2).
pub fn testwin_in_each_order()
    ensures robin { TestsInRobin }
    ensures reverse { TestsInReverse }
    ensures greedy { TestsInGreedy }
    ensures seeded { TestsInSeeded }
{}
