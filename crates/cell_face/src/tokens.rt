//! Tokens: what one rank hands to another at a synchronisation.
ghost use Rattle.std.specs.Prelude.{◌≡◌, None, []};
ghost use Rattle.cell_face.specs.Fronts.{greater_front};

/// What a rank gives with an entry and another gains from it: the lowest places of all cells that it carries.
pub trait Token: Drop {
    ghost use Rattle.std.specs.Prelude.{ℕ, List, Option};

    /// The lowest place of each cell, where the token tells them.
    ghost front: { Self → Option (List ℕ) };

    /// The name of the memory that it came from.
    ghost origin: { Self → List ℕ };

    /// Another token with the same front. This one stays as it was.
    fn fork(&mut self) -> Self
        ensures front { front result ≡ front self.old }
        ensures origin { origin result ≡ origin self.old }
        ensures front_stays { front self.new ≡ front self.old }
        ensures origin_stays { origin self.new ≡ origin self.old };

    /// Carries what both tokens carry: for each cell the greater place.
    fn merge(&mut self, other: Self)
        requires { origin other ≡ origin self.old }
        ensures front { front self.new ≡ greater_front (front self.old) (front other) }
        ensures origin { origin self.new ≡ origin self.old };
}

/// The token of a memory that one thread uses alone: it carries nothing.
#[derive(Clone, Copy, Debug, PartialEq, Eq)]
pub struct NoNote;

impl Token for NoNote {
    ghost front = { λ _. None };

    ghost origin = { λ _. [] };

    fn fork(&mut self) -> NoNote {
        NoNote
    }

    fn merge(&mut self, _other: NoNote) {}
}
