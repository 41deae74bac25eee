//! Elements of a cell, and operations on them.
ghost use Rattle.run_examples.specs.Elements.{WrapsAndKeepsNeighbours, WrapsInBothCells, OperatesOnItsRange};
ghost use Rattle.run_examples.specs.Elements.{SwapsWhatIsEqual, HasPlaceOne, RefusesOperations};

/// A sum wraps in its element and leaves the neighbours of the element as they are. A compare-and-swap changes what is
/// equal alone. Operations that a datatype does not have are refused (MPI 3.1, sections 5.9.2 and 11.3.4).
pub fn operations_on_elements()
    ensures sum_of_a_byte { WrapsAndKeepsNeighbours }
    ensures sums_in_a_lock { WrapsInBothCells }
    ensures operations { OperatesOnItsRange }
    ensures two_swaps { SwapsWhatIsEqual }
    ensures second_place { HasPlaceOne }
    ensures wrong_operations { RefusesOperations }
{}
