//! An exchange between neighbours.
ghost use Rattle.run_examples.specs.Exchanges.{ExchangesAtOnce, ExchangesAtTheFence, ExchangesAtDrawnMoments};

/// Each rank puts its number to both neighbours and reads theirs after the fence, with each delay of the touches
/// (MPI 3.1, sections 11.5.1 and 11.7).
pub fn exchange_on_a_ring()
    ensures at_once { ExchangesAtOnce }
    ensures at_the_fence { ExchangesAtTheFence }
    ensures at_drawn_moments { ExchangesAtDrawnMoments }
{}
