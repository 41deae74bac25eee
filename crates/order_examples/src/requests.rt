//! Runs with requests.
ghost use Rattle.order_examples.specs.Requests.{FindsTheRequestedPut, FindsNoneAfterRequestedGets};

/// The end of its request makes a get done, and no put (MPI 3.1, sections 11.3.5 and 11.7).
pub fn findings_of_requests()
    ensures put { FindsTheRequestedPut }
    ensures gets { FindsNoneAfterRequestedGets }
{}
