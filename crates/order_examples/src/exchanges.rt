//! An exchange between neighbours on a ring of 4 ranks.
ghost use Rattle.order_examples.specs.Exchanges.{FindsNoneAtOnce, FindsNoneAtTheFence, FindsNoneAtDrawnMoments};
ghost use Rattle.order_examples.specs.Exchanges.{IsDoneAtEachLeave, ReadsTheNeighbours};

/// The exchange has no finding, whenever its puts are touched. A put is done at each rank's leave of the next fence,
/// and the load reads what the updates before it left (MPI 3.1, sections 11.5.1 and 11.7).
pub fn order_of_an_exchange()
    ensures at_once { FindsNoneAtOnce }
    ensures at_the_fence { FindsNoneAtTheFence }
    ensures at_drawn_moments { FindsNoneAtDrawnMoments }
    ensures done { IsDoneAtEachLeave }
    ensures ordered_read { ReadsTheNeighbours }
{}
