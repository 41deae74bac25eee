//! What the board keeps of its entries: each with its call, whose values are left out, and with what its rank gave with
//! it (MPI 3.1, sections 11.5 and 11.7, in this project's profile).
#![tactic(auto)]

ghost use Rattle.kept_rows.specs.KeptRowLaws.{DecisionsNeedNoValues, WindowsNeedNoValues, PartsNeedNoValues};
ghost use Rattle.kept_rows.specs.KeptRowLaws.{EventsAreKept, EdgesNeedNoValues, GainsNeedNoValues};

/// After entries without their values the board answers the next entry, which is asked with its own, as after the
/// entries themselves: the numbers and the parts of windows, the edges between entries and what a next entry gains are
/// the same (MPI 3.1, sections 11.2, 11.5 and 11.7, in this project's profile).
///
/// It is a theorem, and does nothing when it is called.
pub fn kept_rows_are_enough()
    ensures decisions { DecisionsNeedNoValues }
    ensures windows { WindowsNeedNoValues }
    ensures parts { PartsNeedNoValues }
    ensures events { EventsAreKept }
    ensures edges { EdgesNeedNoValues }
    ensures gains { GainsNeedNoValues }
{}
