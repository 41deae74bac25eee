//! Windows to which memory is attached.
ghost use Rattle.run_examples.specs.Regions.{ReachesAttachedBytes, ReachesAttachedBytesAfterAFence, KeepsRegionsApart};

/// An access is refused before its bytes are attached and after they are detached. Regions do not overlap
/// (MPI 3.1, section 11.2.4).
pub fn attached_regions()
    ensures between_barriers { ReachesAttachedBytes }
    ensures between_fences { ReachesAttachedBytesAfterAFence }
    ensures regions_of_a_space { KeepsRegionsApart }
{}
