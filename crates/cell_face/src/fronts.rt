//! A token that tells its front.
ghost use Rattle.std.specs.Prelude.{◌≡◌, Some, length, []};
ghost use Rattle.cell_face.specs.Fronts.{greater};

use crate::tokens::Token;

/// A front of 16 places, for a board or a check that has no memory behind it.
#[derive(Clone, Copy, Debug, PartialEq, Eq)]
pub struct Front {
    /// For each of 16 cells, how many of its updates are known.
    pub places: [u32; 16],
}

/// Raises each place to the other of its index.
fn raise(places: &mut [u32], others: &[u32])
    requires { length places.old ≡ length others.now }
    ensures { places.new ≡ greater places.old others.now }
{
    for at in 0..places.len() {
        places[at] = places[at].max(others[at]);
    }
}

impl Token for Front {
    ghost front = { λ front. Some front.places };

    ghost origin = { λ _. [] };

    fn fork(&mut self) -> Front {
        *self
    }

    fn merge(&mut self, other: Front) {
        raise(&mut self.places, &other.places);
    }
}
