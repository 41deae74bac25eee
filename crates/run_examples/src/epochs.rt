//! Calls that are refused, and requests.
ghost use Rattle.run_examples.specs.Epochs.{RefusesBeforeAFence, RefusesOutsideEpochs, EndsFencesByNosucceed};
ghost use Rattle.run_examples.specs.Epochs.{RefusesAnotherAssertion, RefusesByEachTest, RefusesAssertionsAndRanks};
ghost use Rattle.run_examples.specs.Epochs.{FollowsTheEpochs, HasItsOwnMemory, CompletesRequests};

/// A call outside its epoch is refused, and its rank goes on. Each test of a call gives its class
/// (MPI 3.1, sections 11.5 and 11.6).
pub fn refusals()
    ensures before_a_fence { RefusesBeforeAFence }
    ensures outside_epochs { RefusesOutsideEpochs }
    ensures no_succeeding { EndsFencesByNosucceed }
    ensures two_assertions { RefusesAnotherAssertion }
    ensures each_test { RefusesByEachTest }
    ensures assertions_and_ranks { RefusesAssertionsAndRanks }
    ensures each_epoch { FollowsTheEpochs }
{}

/// A window's name can be used again after its free, and the next window has memory of its own. A request names an
/// access until it is waited for or tested (MPI 3.1, sections 11.2.5 and 11.3.5).
pub fn names_and_requests()
    ensures name_used_again { HasItsOwnMemory }
    ensures two_requests { CompletesRequests }
{}
