//! Runs with fences.
ghost use Rattle.run_examples.specs.Fences.{IsReadAfterTheFence, IsRefusedAtTheEndOfThePart, CountsInUnitsOfTheTarget};
ghost use Rattle.run_examples.specs.Fences.{ReachesSpaceAndMemory, HasALineForEach32Bytes, EndsWithoutCalls};

/// A put between two fences is there after the second one. It ends within the target's part, and counts displacements
/// in the target's unit. A script without calls has a report too (MPI 3.1, sections 11.2.1, 11.3.1 and 11.5.1).
pub fn puts_between_fences()
    ensures one_put { IsReadAfterTheFence }
    ensures past_the_end { IsRefusedAtTheEndOfThePart }
    ensures two_units { CountsInUnitsOfTheTarget }
    ensures space_and_memory { ReachesSpaceAndMemory }
    ensures far_stores { HasALineForEach32Bytes }
    ensures no_calls { EndsWithoutCalls }
{}
