//! Where the assertions of a call say each of them.
ghost use Rattle.std.specs.Prelude.{◌≡◌};
ghost use Rattle.script_language.specs.Spelling.{is_given as given};
ghost use Rattle.script_language.specs.Tokens.{with_assertion};

use crate::places::Assertion;
use rma_types::Asserts;

/// Whether the assertion is given.
pub fn is_given(asserts: Asserts, assertion: Assertion) -> bool
    ensures { result ≡ given asserts assertion }
{
    match assertion {
        Assertion::NoCheck => asserts.nocheck,
        Assertion::NoStore => asserts.nostore,
        Assertion::NoPut => asserts.noput,
        Assertion::NoPrecede => asserts.noprecede,
        Assertion::NoSucceed => asserts.nosucceed,
    }
}

/// The assertions with one more.
pub fn asserts_with(asserts: Asserts, assertion: Assertion) -> Asserts
    ensures { result ≡ with_assertion asserts assertion }
{
    match assertion {
        Assertion::NoCheck => Asserts {
            nocheck: true,
            ..asserts
        },
        Assertion::NoStore => Asserts {
            nostore: true,
            ..asserts
        },
        Assertion::NoPut => Asserts {
            noput: true,
            ..asserts
        },
        Assertion::NoPrecede => Asserts {
            noprecede: true,
            ..asserts
        },
        Assertion::NoSucceed => Asserts {
            nosucceed: true,
            ..asserts
        },
    }
}
