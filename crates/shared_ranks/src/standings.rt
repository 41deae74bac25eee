//! How a rank stands.
ghost use Rattle.std.specs.Prelude.{◌≡◌};
ghost use Rattle.shared_ranks.specs.Standings.{is_going, standing_after, tried_again};

use rank_engine::Turned;
use rma_types::NoMemory;

/// How a rank stands after a round.
#[derive(Clone, Copy, Debug, PartialEq, Eq)]
pub enum Standing {
    /// It goes on.
    Going,
    /// Its next entry is not yet possible after the entries that it knows (MPI 3.1, section 11.5).
    Waits,
    /// It has ended.
    Ended,
    /// Memory ran out within one of its steps: it makes no step any more.
    OutOfMemory,
}

impl Standing {
    /// How a rank stands after a step with this answer.
    pub(crate) fn after(turned: Result<Turned, NoMemory>) -> Standing
        ensures { result ≡ standing_after turned }
    {
        match turned {
            Ok(Turned::Did) => Standing::Going,
            Ok(Turned::NotYet) => Standing::Waits,
            Ok(Turned::Again) => Standing::Going,
            Ok(Turned::Full) => Standing::Going,
            Ok(Turned::Ended) => Standing::Ended,
            Err(_) => Standing::OutOfMemory,
        }
    }

    /// How it stands once it has learnt entries that it did not know.
    pub(crate) fn tried_again(self) -> Standing
        ensures { result ≡ tried_again self }
    {
        match self {
            Standing::Waits => Standing::Going,
            _ => self,
        }
    }

    /// Whether the rank goes on.
    pub fn is_going(self) -> bool
        ensures { result ≡ is_going self }
    {
        match self {
            Standing::Going => true,
            _ => false,
        }
    }
}
