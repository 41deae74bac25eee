//! The states of a cell.
ghost use Rattle.run_examples.specs.CellLaws.{FoldsOneAtATime, StaysWithoutAnUpdate, ChangesNothingBefore};

/// The updates of a cell are made one at a time, in the order of their places: each makes the next state from the last,
/// and no other state depends on it but the later ones (MPI 3.1, section 11.7.1).
pub fn updates_of_a_cell()
    ensures one_at_a_time { FoldsOneAtATime }
    ensures without_an_update { StaysWithoutAnUpdate }
    ensures before { ChangesNothingBefore }
{}
