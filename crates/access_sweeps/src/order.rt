//! Which of two accesses is ordered before the other (after MPI 3.1, section 11.7).
ghost use Rattle.std.specs.Prelude.{◌≡◌};
ghost use Rattle.order_rules.specs.Ordered.{is_ordered as is_ordered_by};
ghost use Rattle.vector_clocks.specs.Marks.{before_in};
ghost use Rattle.first_points.specs.Alike.{judged_by};

use first_points::{JudgedPoints, do_reach, points_towards};
use rma_rules::part_of;
use vector_clocks::Clocks;

/// Whether the first access is ordered before the second.
pub(crate) fn is_ordered(clocks: &Clocks, a: &JudgedPoints, b: &JudgedPoints) -> bool
    ensures { result ≡ is_ordered_by (before_in clocks.now) (judged_by a.now) (judged_by b.now) }
{
    let own = [a.id];
    do_reach(
        clocks,
        points_towards(a, &own, part_of(b.access.kind)),
        b.id,
    )
}
