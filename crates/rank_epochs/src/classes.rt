//! The tests of a call by its arguments alone (MPI 3.1, sections 5.9.2, 11.3 and 11.5).
ghost use Rattle.std.specs.Prelude.{◌≡◌};
ghost use Rattle.rank_rules.specs.EpochTests as tests;

use crate::ranks::{is_rank, is_wrong_group};
use rma_types::{Asserts, Kind, Synchronisation, Target};

/// Whether the operation of an accumulate is not allowed on its datatype.
pub fn has_wrong_operation(kind: Kind, fetches: bool) -> bool
    ensures { result ≡ tests.has_wrong_operation kind fetches }
{
    match kind {
        Kind::Acc { op, dtype } => !op.allowed(dtype, fetches),
        Kind::Get | Kind::Put | Kind::Cas { .. } | Kind::Load | Kind::Store => false,
    }
}

pub fn is_wrong_target(target: Target, ranks: u8) -> bool
    ensures { result ≡ tests.is_wrong_target ranks target }
{
    match target {
        Target::Own | Target::Null => false,
        Target::Named(rank) => !is_rank(rank, ranks),
    }
}

fn is_wrong_rank(target: &Option<i32>, ranks: u8) -> bool
    ensures { result ≡ tests.is_wrong_rank ranks target.now }
{
    match target {
        None => false,
        Some(rank) => !is_rank(*rank, ranks),
    }
}

pub fn names_wrong_rank(synchronisation: &Synchronisation<'_>, ranks: u8) -> bool
    ensures { result ≡ tests.names_wrong_rank ranks synchronisation.now }
{
    match synchronisation {
        Synchronisation::Posts(group, _) | Synchronisation::Starts(group, _) => {
            is_wrong_group(group.as_slice(), ranks)
        }
        Synchronisation::Locks(_, target, _)
        | Synchronisation::Unlocks(target)
        | Synchronisation::Flushes { target, .. } => is_wrong_rank(target, ranks),
        Synchronisation::Fences(_)
        | Synchronisation::Completes
        | Synchronisation::Waits { .. }
        | Synchronisation::Syncs => false,
    }
}

/// Whether there is an assertion other than `nocheck`, which alone is for a start, a lock and a lock_all.
pub fn has_more_than_nocheck(asserts: &Asserts) -> bool
    ensures { result ≡ tests.has_more_than_nocheck asserts.now }
{
    asserts.nostore || asserts.noput || asserts.noprecede || asserts.nosucceed
}
