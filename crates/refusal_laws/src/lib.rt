//! Laws of refused calls, as theorems over the definitions.
#![tactic(auto)]

ghost use Rattle.refusal_laws.specs.RefusalLaws.{RefusedCallsChangeNothing};

/// In a lawful run each refused call is refused by its named class: by its rank's own, or where its rank gives none, by
/// the board's after the entries that it saw. It has no other item, so that it makes no entry and no access, and its
/// rank knows after it what it knew before (MPI 3.1, sections 8.4, 11.5 and 11.6, in this project's profile).
///
/// It is a theorem, and does nothing when it is called.
pub fn refused_calls_change_nothing()
    ensures { RefusedCallsChangeNothing }
{}
