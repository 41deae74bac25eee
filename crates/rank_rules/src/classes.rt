//! The first test of a call that applies.
ghost use Rattle.std.specs.Prelude.{◌≡◌};
ghost use Rattle.rank_rules.specs.Classes.{first_class as class_of_first};

use rma_types::Class;

/// The class of the first test that applies, or none. Each test is whether it applies, and its class.
pub fn first_class(tests: &[(bool, Class)]) -> Option<Class>
    ensures { result ≡ class_of_first tests.now }
{
    for (applies, class) in tests {
        if *applies {
            return Some(*class);
        }
    }
    None
}
