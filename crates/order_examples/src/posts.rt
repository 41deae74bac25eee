//! Runs with posts and starts.
ghost use Rattle.order_examples.specs.Posts.{FindsTheGetBeforeTheWait, FindsNoneInTwoRounds, IsDoneAtItsOwnWait};

/// A put in a start epoch is done at the wait of its target, and not at its own complete (MPI 3.1, sections 11.5.2 and
/// 11.7).
pub fn findings_of_a_post()
    ensures completed { FindsTheGetBeforeTheWait }
{}

/// In two rounds of posts and waits each put is done at the wait of its own round, and the second post orders what
/// stands before it before the second put (MPI 3.1, section 11.5.2).
pub fn findings_of_two_rounds()
    ensures rounds { FindsNoneInTwoRounds }
    ensures done { IsDoneAtItsOwnWait }
{}
